// Text on its way to a writer, through the buffer of a pen.

use crate::equality::equal;
use crate::slow::Slow;
use fit_grammar::WriteFailed;
use fit_text::Pen;
use std::alloc::AllocError;
use std::io::Write;
use std::test::Fail;

// The most bytes that wait in a pen.
const SIZE: usize = 32_768;

#[test]
fn so_many_bytes_wait(rt: HostRuntime) {
    let mut out = Slow::new(rt.alloc(), usize::MAX, 0);
    let mut pen = Pen::new(&mut out);
    assert!(rt; pen.put(&[b'x'; SIZE]).is_ok());
    assert!(rt; pen.put(b"x").is_err());
}

// Puts this text, then some of each kind.
fn put_after<W: Write>(pen: &mut Pen<'_, W>, text: &[u8]) -> Result<(), WriteFailed> {
    pen.put(text)?;
    pen.put(b" heart_rate=")?;
    pen.put_number(u64::MAX)?;
    pen.put_signed(i64::MIN)?;
    pen.put_number(0)?;
    pen.put_signed(7)?;
    pen.put(b"\n")?;
    pen.hand_over()
}

const AFTER: &[u8] = b" heart_rate=18446744073709551615-922337203685477580807\n";

// The text after the first one crosses the end of the buffer at each of its bytes. The writer takes no call, one, two or all.
#[test]
fn text_crosses_the_end_of_the_buffer(rt: HostRuntime) -> Result<(), AllocError> {
    let front = [b'x'; SIZE];
    for missing in 0..70 {
        let text = &front[missing..];
        let mut whole = Vec::from_slice(rt.alloc(), text)?;
        whole.extend_from_slice(AFTER)?;
        for calls in 0..4 {
            let mut out = Slow::new(rt.alloc(), usize::MAX, calls);
            let mut pen = Pen::new(&mut out);
            let done = put_after(&mut pen, text).is_ok();
            let _ = pen.into_writer();
            let written = out.written();
            // A prefix is there; all of it if no put failed; all with three calls; and nothing without a call.
            assert!(rt;
                whole.as_slice().starts_with(written)
                    && done == (written.len() == whole.len())
                    && (done || calls < 3)
                    && (calls > 0 || written.is_empty()),
                "{missing} {calls}"
            );
        }
    }
    Ok(())
}

// A text longer than the buffer is handed over as it is, after what waits.
#[test]
fn long_text_is_whole(rt: HostRuntime) -> Result<(), Fail> {
    let long = [b'y'; SIZE + 1];
    let mut whole = Vec::from_slice(rt.alloc(), b"x")?;
    whole.extend_from_slice(&long)?;
    whole.extend_from_slice(AFTER)?;
    let mut out = Vec::new(rt.alloc());
    let mut pen = Pen::new(&mut out);
    pen.put(b"x")?;
    put_after(&mut pen, &long)?;
    equal(&rt, out.as_slice(), whole.as_slice());
    Ok(())
}
