// Gives the rows on standard input the form that the argument names, `to-new` or `to-old` (H14), and writes them to standard output. Where
// they are refused nothing is written there, and standard error has the refusal.
#![tactic(auto)]

use std::rt::Env;
use values::Refusal;

// As many bytes as are converted: 262144 rows.
const MOST: usize = 4194304;

// Whether the first argument is this word.
fn asked(rt: &impl Env, word: &[u8]) -> bool {
    let mut first = [0u8; 8];
    match rt.arg(1, &mut first) {
        Ok(long) => &first[..long] == word,
        Err(_) => false,
    }
}

// Reads, converts and writes. The buffer has one byte more than is converted, which only a longer input fills.
fn run<F: Fn(&mut [u8]) -> Result<(), Refusal>>(rt: &HostRuntime, buffer: &mut [u8], convert: F)
    requires { F.IsAlwaysCallable convert }
{
    let Ok(n) = input::fill(rt, buffer) else {
        let _ = eprintln!(rt; "rows: cannot read standard input");
        return;
    };
    if n > MOST {
        let _ = eprintln!(rt; "rows: more than 4194304 bytes");
        return;
    }
    if let Err(refusal) = convert(&mut buffer[..n]) {
        let _ = eprintln!(rt; "no {}", refusal.number());
        return;
    }
    if rt.write_all(&buffer[..n]).is_err() {
        let _ = eprintln!(rt; "rows: cannot write standard output");
    }
}

// The buffer has its own function: in `main` its length is not proved.
fn with_buffer<F: Fn(&mut [u8]) -> Result<(), Refusal>>(rt: &HostRuntime, convert: F)
    requires { F.IsAlwaysCallable convert }
{
    let mut buffer = [0u8; 4194305];
    run(rt, &mut buffer, convert);
}

fn main(rt: HostRuntime) {
    if asked(&rt, b"to-new") {
        with_buffer(&rt, digits::to_new);
    } else if asked(&rt, b"to-old") {
        with_buffer(&rt, digits::to_old);
    } else {
        let _ = eprintln!(rt; "usage: rows to-new | to-old");
    }
}
