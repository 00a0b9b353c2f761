// The line of a reply.

use fit_files::SummaryLine;
use fit_histories::{Event, Reply};
use std::fmt::{self, Formatter, Write};

/// An event and its reply, printed as the number of the event's line, its word, and the reply.
#[derive(Drop)]
pub struct ReplyLine<'a> {
    pub event: &'a Event,
    pub reply: Reply,
}

/// A reply, printed as `ok`, the line of a summary, or the name of what is wrong.
#[derive(Drop)]
pub struct ReplyText(pub Reply);

impl fmt::Display for ReplyText {
    ghost use Rattle.std.specs.Prelude.{Some};
    ghost use Rattle.fit_runs.specs.Printed.ReplyLines.{reply_text};

    ghost output = { λ text. Some (reply_text text.0) };

    fn fmt<W: Write>(&self, f: &mut Formatter<W>) -> fmt::Result {
        match self.0 {
            Reply::Done | Reply::Stopped => f.write_str("ok"),
            Reply::Recovered(summary) => write!(f, "{}", SummaryLine(summary)),
            Reply::Refused(fault) => write!(f, "{fault}"),
            Reply::NoRecorder => f.write_str("NoRecorder"),
        }
    }
}

impl fmt::Display for ReplyLine<'_> {
    ghost use Rattle.std.specs.Prelude.{Some};
    ghost use Rattle.fit_runs.specs.Printed.ReplyLines.{line_text};

    ghost output = { λ line. Some (line_text line.event.now line.reply) };

    fn fmt<W: Write>(&self, f: &mut Formatter<W>) -> fmt::Result {
        let ReplyLine { event, reply } = self;
        let reply = ReplyText(*reply);
        write!(f, "{} {}: {reply}", event.line, event.command.word())
    }
}
