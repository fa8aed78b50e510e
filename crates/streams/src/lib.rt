// What the programs read and write. A read that fails is told apart from the end of the input, and what can't be read
// or written is told in a line on standard error.

#![tactic(auto)]

ghost use Rattle.std.specs.Prelude.{◌≡◌, ◌+◌, ◌^◌, ◌<◌, MatchResult, IfOk, Ok, Err};
ghost use Rattle.std.specs.Io.{ReadsAtMost};
ghost use Rattle.std.specs.Io.KnownBytes.{Appends};
ghost use Rattle.streams.specs.Reads.{Reads, ReadsWhole, standing_after};
ghost use Rattle.streams.specs.Failures.{line_of};

use std::io::{Read, Write};
use std::ops::ControlFlow;

// Why a program stops before its end.
#[derive(Clone, Copy)]
pub enum Failure {
    Unread,
    Unwritten,
}

impl Failure {
    // The line that says it.
    pub fn line(self) -> &'static [u8]
        ensures { result.now ≡ line_of self }
    {
        match self {
            Failure::Unread => b"cannot read the input\n",
            Failure::Unwritten => b"cannot write the output\n",
        }
    }
}

// Reads once: how many bytes came to the start of a part. None come where the input has ended, or the part has no room.
pub fn read_some<R: Read>(input: &mut R, part: &mut [u8]) -> Result<usize, Failure>
    ensures within { ReadsAtMost result part.new }
    ensures bytes { Reads (R.remaining input.old) (R.remaining input.new) part.new result }
{
    told(input.read(part))
}

// What a read answered: how many bytes came, or that it failed.
fn told(read: std::io::Result<usize>) -> Result<usize, Failure>
    ensures { MatchResult read (λ n. result ≡ Ok n) (λ _. result ≡ Err Failure.Unread) }
{
    read.map_err(|_| Failure::Unread)
}

// Reads to the end of an input, or as far as the room goes: how many bytes came.
pub fn read_whole<R: Read>(input: &mut R, room: &mut [u8]) -> Result<usize, Failure>
    ensures holds { ReadsAtMost result room.new }
    ensures bytes { ReadsWhole (R.remaining input.old) (R.remaining input.new) room.new result }
{
    let mut n = 0;
    while n < room.len() {
        let read = read_some(input, &mut room[n..]);
        match standing_after(n, read) {
            ControlFlow::Continue(more) => n = more,
            ControlFlow::Break(whole) => return whole,
        }
    }
    Ok(n)
}

// Where reading stands after a read behind n bytes: how many are held, of which there may be more, or what they are in
// all.
fn standing_after(
    n: usize,
    read: Result<usize, Failure>,
) -> ControlFlow<Result<usize, Failure>, usize>
    requires { IfOk read (λ k. n + k < 2 ^ 64) }
    ensures { result ≡ standing_after n read }
{
    match read {
        Ok(0) => ControlFlow::Break(Ok(n)),
        Ok(k) => ControlFlow::Continue(n + k),
        Err(failure) => ControlFlow::Break(Err(failure)),
    }
}

// Writes all bytes.
pub fn write_out<W: Write>(out: &mut W, bytes: &[u8]) -> Result<(), Failure>
    ensures { MatchResult result
        (λ _. Appends (W.contents out.old) (W.contents out.new) bytes.now)
        (λ failure. failure ≡ Failure.Unwritten) }
{
    out.write_all(bytes).map_err(|_| Failure::Unwritten)
}

// Writes to standard error: a line, or a part of one.
pub fn tell<E: Write>(err: &mut E, text: &[u8]) {
    let _ = err.write_all(text);
}
