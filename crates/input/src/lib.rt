// What the programs that write a log share: standard input, as it comes or in parts that are full but for the last, and a file that an argument
// names.
#![tactic(auto)]

ghost use Rattle.std.specs.Prelude.{◌≡◌, ◌≤◌, ◌<◌, IfOk, length, slice_range, take};
ghost use Rattle.std.specs.Io.KnownBytes.{Consumes, IsAtEnd};
ghost use Rattle.input.specs.Meaning.{count_of};

use std::env::FillError;
use std::fs;
use std::io::{ErrorKind, Read};
use std::rt::{Env, Files};

// A read failed, after so many bytes.
#[derive(Clone, Copy, PartialEq, Eq, Debug)]
pub struct ReadFailed {
    pub n: usize,
}

// Reads until buf is full, the input ends or a read fails; answers how many bytes it has then. Pieces of any size are put together: of a reader
// whose bytes are known they are the next ones, all that were taken from it, and where no read failed there are fewer than buf has room for only at
// the end.
fn fill_from<R: Read>(from: &mut R, buf: &mut [u8]) -> Result<usize, ReadFailed>
    ensures fits { count_of result ≤ length buf.new }
    ensures bytes { Consumes (R.remaining from.old) (R.remaining from.new) (take (count_of result) buf.new) }
    ensures end { IfOk result (λ n. n < length buf.new → IsAtEnd (R.remaining from.new)) }
{
    let mut n: usize = 0;
    while n < buf.len() {
        match from.read(&mut buf[n..]) {
            Ok(0) => return Ok(n),
            Ok(more) => n += more,
            Err(_) => return Err(ReadFailed { n }),
        }
    }
    Ok(n)
}

// The same from standard input, so that records are cut at the same places whatever the reads bring.
pub fn fill(rt: &HostRuntime, buf: &mut [u8]) -> Result<usize, ReadFailed>
    ensures { count_of result ≤ length buf.new }
{
    fill_from(&mut rt.stdin(), buf)
}

// Reads the file that argument i names, and no more of it than buf has room for. Without an argument, or where there is no such file, it has no
// bytes; one that is there and cannot be read is a read that failed. So is a name that is too long or not UTF-8 text.
pub fn read_named<R: Env + Files>(rt: &R, i: usize, buf: &mut [u8]) -> Result<usize, ReadFailed>
    ensures { count_of result ≤ length buf.new }
{
    let mut space = [0u8; 4096];
    let long = match rt.arg(i, &mut space) {
        Ok(long) => long,
        Err(FillError::NotPresent) => return Ok(0),
        Err(FillError::TooLong) => return Err(ReadFailed { n: 0 }),
    };
    let name = std::str::from_utf8(&space[..long]).map_err(|_| ReadFailed { n: 0 })?;
    match fs::open(rt, name) {
        Ok(mut file) => fill_from(&mut file, buf),
        Err(e) if e.kind() == ErrorKind::NotFound => Ok(0),
        Err(_) => Err(ReadFailed { n: 0 }),
    }
}

// Reads once, into buf after its first `kept` bytes, which stay; answers how many bytes it has then. Where the input has ended they are as
// many as before. Of a reader whose bytes are known the new ones are the next.
fn read_after_from<R: Read>(from: &mut R, buf: &mut [u8], kept: usize) -> Result<usize, ReadFailed>
    requires { kept ≤ length buf.old }
    ensures counts_kept { kept ≤ count_of result }
    ensures fits { count_of result ≤ length buf.new }
    ensures keeps { take kept buf.new ≡ take kept buf.old }
    ensures bytes { Consumes (R.remaining from.old) (R.remaining from.new) (slice_range buf.new kept (count_of result)) }
    ensures end { IfOk result (λ n. n ≡ kept → kept < length buf.new → IsAtEnd (R.remaining from.new)) }
{
    match from.read(&mut buf[kept..]) {
        Ok(more) => Ok(kept + more),
        Err(_) => Err(ReadFailed { n: kept }),
    }
}

// The same from standard input.
pub fn read_after(rt: &HostRuntime, buf: &mut [u8], kept: usize) -> Result<usize, ReadFailed>
    requires { kept ≤ length buf.old }
    ensures counts_kept { kept ≤ count_of result }
    ensures fits { count_of result ≤ length buf.new }
    ensures keeps { take kept buf.new ≡ take kept buf.old }
{
    read_after_from(&mut rt.stdin(), buf, kept)
}
