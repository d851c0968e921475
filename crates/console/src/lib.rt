// A program's standard input and output: buffers are filled, texts and numbers printed. A read that
// fails ends the input, and what cannot be written is lost; the program runs on, and `finish`
// answers the first failure.
#![tactic(auto)]

ghost use Rattle.console.specs.Failures.{first_failure, KeepsFirst};
ghost use Rattle.std.specs.Prelude.{◌≡◌, ◌<◌, ◌≤◌, length, take, IfOk, IsOk, MatchOption};
ghost use Rattle.std.specs.Io.{ReadsAtMost};
ghost use Rattle.std.specs.Io.KnownBytes.{Consumes, IsAtEnd};

use std::io;
use std::io::Read;

#[derive(Drop)]
pub struct Console {
    rt: HostRuntime,
    failure: Option<io::Error>,
}

impl Console {
    pub fn new(rt: HostRuntime) -> Console
        ensures { result.failure ≡ None }
    {
        Console { rt, failure: None }
    }

    // Reads until buf is full or the input ends, and answers how many bytes came: they are at the
    // start of buf.
    pub fn read_full(&mut self, buf: &mut [u8]) -> usize
        ensures within { result ≤ length buf.new }
        ensures taken { result ≡ length (take result buf.new) }
        ensures first { KeepsFirst self.old.failure self.new.failure }
    {
        let read = read_full(&mut self.rt.stdin(), buf);
        match read {
            Ok(n) => n,
            Err(e) => {
                self.keep(Err(e));
                0
            }
        }
    }

    pub fn text(&mut self, bytes: &[u8])
        ensures { KeepsFirst self.old.failure self.new.failure }
    {
        let done = self.rt.write_all(bytes);
        self.keep(done);
    }

    // The decimal digits of n.
    pub fn decimal(&mut self, n: u64)
        ensures { KeepsFirst self.old.failure self.new.failure }
    {
        let done = self.rt.print(n);
        self.keep(done);
    }

    // The hexadecimal digits of n, in lower case, with zeros in front up to that many digits.
    pub fn hex(&mut self, n: u64, digits: usize)
        ensures { KeepsFirst self.old.failure self.new.failure }
    {
        let done = print!(self.rt; "{n:0digits$x}");
        self.keep(done);
    }

    // The first failure.
    pub fn finish(self) -> io::Result<()>
        ensures { MatchOption self.failure (IsOk result) (λ e. result ≡ Err e) }
    {
        match self.failure {
            None => Ok(()),
            Some(e) => Err(e),
        }
    }

    fn keep(&mut self, done: io::Result<()>)
        ensures { self.new.failure ≡ first_failure self.old.failure done }
    {
        if let Err(e) = done {
            if self.failure.is_none() {
                self.failure = Some(e);
            }
        }
    }
}

// Reads until buf is full or the input ends, and answers how many bytes came: they are at the start
// of buf.
pub fn read_full<R: Read>(input: &mut R, buf: &mut [u8]) -> io::Result<usize>
    ensures bound { ReadsAtMost result buf.new }
    ensures bytes { IfOk result (λ n.
        Consumes (R.remaining input.old) (R.remaining input.new) (take n buf.new)) }
    ensures end { IfOk result (λ n. n < length buf.new → IsAtEnd (R.remaining input.new)) }
{
    let mut done = 0;
    while done < buf.len() {
        let n = input.read(&mut buf[done..])?;
        if n == 0 {
            break;
        }
        done += n;
    }
    Ok(done)
}
