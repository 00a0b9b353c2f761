// Keeps the answers of a run, or a part of each.

ghost use Rattle.std.specs.Prelude.{◌≡◌, ◌++◌, ◌∷◌, [], List, OnOk};
ghost use Rattle.fit_histories.specs.Histories.Table.{Outcome};
ghost use Rattle.fit_histories.specs.Rides.Standing.{outcome};

use super::NoMemory;
use super::answering::answer_of;
use crate::answer::Answer;
use crate::reply::Reply;
use std::alloc::Global;

// Keeps what is needed of each answer.
pub trait Keeper {
    // It was given these answers, in this order.
    ghost WasReported: { Self → List Outcome → Type 0 };

    // Keeps the next answer: a reply, and the data file if no recorder runs.
    fn keep(&mut self, reply: Reply, file: &[u8]) -> Result<(), NoMemory>
        ensures { (outcomes : List Outcome) → WasReported self.old outcomes
            → OnOk result (WasReported self.new (outcomes ++ outcome reply file.now ∷ [])) };
}

// The answers, with the files that were finished.
#[derive(Drop)]
pub struct Answers {
    pub alloc: Global,
    pub kept: Vec<Answer>,
}

impl Keeper for Answers {
    ghost use Rattle.std.specs.Prelude.{map};
    ghost use Rattle.fit_histories.specs.Histories.Runs.{outcome_in};

    ghost WasReported = { λ answers outcomes. map outcome_in answers.kept.items ≡ outcomes };

    fn keep(&mut self, reply: Reply, file: &[u8]) -> Result<(), NoMemory> {
        let answer = answer_of(self.alloc, reply, file)?;
        add(&mut self.kept, answer)
    }
}

// The replies alone.
#[derive(Drop)]
pub struct Replies {
    pub kept: Vec<Reply>,
}

impl Keeper for Replies {
    ghost use Rattle.std.specs.Prelude.{map};
    ghost use Rattle.fit_histories.specs.Rides.Standing.{reply_in};

    ghost WasReported = { λ replies outcomes. replies.kept.items ≡ map reply_in outcomes };

    fn keep(&mut self, reply: Reply, _file: &[u8]) -> Result<(), NoMemory> {
        add(&mut self.kept, reply)
    }
}

// Adds a value to the end.
fn add<T: Drop>(all: &mut Vec<T>, one: T) -> Result<(), NoMemory>
    ensures { OnOk result (all.new.items ≡ all.old.items ++ one ∷ []) }
{
    match all.push(one) {
        Ok(()) => Ok(()),
        Err(_) => Err(NoMemory),
    }
}
