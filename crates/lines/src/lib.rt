// The log's lines (H10).
#![tactic(auto)]

ghost use Rattle.std.specs.Prelude.{◌≡◌, List, [], ◌∷◌, ◌++◌, ℕ, ◌+◌, ◌-◌, ◌*◌, ◌/◌, ◌≤◌, ◌<◌, min, length, take, drop, replicate};
ghost use Rattle.model.specs.Log.{decimal};
ghost use Rattle.answers.specs.Numbers.{kind_of, number_of};
ghost use Rattle.lines.specs.Digits.{Spelled, tens_of, lead_of};
ghost use Rattle.lines.specs.Words.{rows, up_to_number, has_number, has_status, status_part, tail_with, tail_from};
ghost use Rattle.lines.specs.Written.{Appended, Spills, LineAppended, LinesWritten, Partly, OneTen};

use values::Answer;

// A row of eight bytes for each kind, the last for every further one: a space and the words, up to their number or with the line's end. Then a
// byte for each row: the length of this text, 16 more where a number follows, and 32 more where a status follows that. It is lent to those who read it.
// As a list of rows with an enum for what follows, and structs for the number that is counted, a log of `uniform` takes 7.6 % more instructions.
// With `for`, `min` and `copy_from_slice` in place of the loops by index and `least`, it takes 2.4 instructions more for each record.
const ROWS: [u8; 90] =
    *b" ok\n\0\0\0\0 going\n\0 freed \0 at \0\0\0\0 value \0 done\n\0\0 no \0\0\0\0 value - none\n\0\0 no \0\0\0\0\x04\x07\x17\x14\x37\x06\x14\x38\x06\x14";

// Writes a text at index `at` of out; answers the index after it.
fn put_text(out: &mut [u8], at: usize, t: &[u8]) -> usize
    requires { at + length t.now ≤ length out.old }
    ensures { Appended t.now at out.old out.new result }
{
    let mut i = 0;
    while i < t.len() {
        out[at + i] = t[i];
        i += 1;
    }
    at + i
}

// Writes x into places that hold zeros, from its last digit on; answers the place of its first.
fn spell(places: &mut [u8; 20], x: u64) -> usize
    requires { places.old ≡ replicate 20 48 }
    ensures { Spelled x places.new result }
{
    let mut i = 20;
    let mut rest = x;
    while i > 0 {
        i -= 1;
        places[i] = 48 + (rest % 10) as u8;
        if rest < 10 {
            return i;
        }
        rest /= 10;
    }
    i
}

// Adds one to the number in the places, whose first digit is at place `start`; answers the place of its first digit then.
// From the last digit on, a 9 becomes a 0, and the first other digit goes up by one.
fn count_up(places: &mut [u8; 20], start: usize) -> usize
    ensures { (x : ℕ) → Spelled x places.old start → Spelled (x + 1) places.new result }
{
    let mut i = 20;
    while i > 0 {
        i -= 1;
        if places[i] < 57 {
            places[i] += 1;
            if i < start {
                return i;
            }
            return start;
        }
        places[i] = 48;
    }
    i
}

// Writes the digits from place `start` on at index `at` of out, one after the other; answers the index after them.
fn put_all(out: &mut [u8], at: usize, places: &[u8; 20], start: usize) -> usize
    requires { (start ≤ 20) × (at + 20 ≤ length out.old) }
    ensures appended { Appended (drop start places.now) at out.old out.new result }
    ensures upper_bound { result ≤ at + 20 }
{
    let all = &places[..];
    put_text(out, at, &all[start..])
}

// The same for m to 2m digits: the first m of them, then the last m. Where the compiler knows m, each is one move. With
// `put_all` for any number of digits, a log of `uniform` takes 2.6 instructions more for each record.
fn put_ends(out: &mut [u8], at: usize, places: &[u8; 20], start: usize, m: usize) -> usize
    requires { (start + m ≤ 20) × (20 ≤ start + 2 * m) × (at + 20 ≤ length out.old) }
    ensures appended { Appended (drop start places.now) at out.old out.new result }
    ensures upper_bound { result ≤ at + 20 }
{
    let all = &places[..];
    let end = start + m;
    let last = 20 - m;
    put_text(out, at, &all[start..end]);
    put_text(out, at + (last - start), &all[last..20])
}

// Writes the digits from place `start` on at index `at` of out; answers the index after them.
fn put_digits(out: &mut [u8], at: usize, places: &[u8; 20], start: usize) -> usize
    requires { (start ≤ 20) × (at + 20 ≤ length out.old) }
    ensures appended { Appended (drop start places.now) at out.old out.new result }
    ensures upper_bound { result ≤ at + 20 }
{
    if start < 4 {
        return put_all(out, at, places, start);
    }
    if start <= 12 {
        return put_ends(out, at, places, start, 8);
    }
    if start <= 16 {
        return put_ends(out, at, places, start, 4);
    }
    if start <= 18 {
        return put_ends(out, at, places, start, 2);
    }
    put_all(out, at, places, start)
}

// Writes a number in decimal at index `at` of out; answers the index after it.
fn put_decimal(out: &mut [u8], at: usize, x: u64) -> usize
    requires { at + 20 ≤ length out.old }
    ensures { Appended (decimal x) at out.old out.new result }
{
    if x < 10 {
        out[at] = 48 + (x % 10) as u8;
        return at + 1;
    }
    let mut places = [48u8; 20];
    let start = spell(&mut places, x);
    put_digits(out, at, &places, start)
}

fn least(a: usize, b: usize) -> usize
    ensures { result ≡ min a b }
{
    if a < b {
        return a;
    }
    b
}

// Writes a byte at index `at` of out; answers the index after it.
fn put_byte(out: &mut [u8], at: usize, b: u8) -> usize
    requires { at < length out.old }
    ensures { Appended (b ∷ []) at out.old out.new result }
{
    out[at] = b;
    at + 1
}

// Writes the first n bytes of `head`, in one move, and `last` at index `at` of out; answers the index after them.
fn put_number(out: &mut [u8], at: usize, head: &[u8; 20], n: usize, last: u8) -> usize
    requires { (n ≤ 8) × (at + 9 ≤ length out.old) }
    ensures spills { Spills (take n head.now ++ (last ∷ [])) at out.old out.new result }
    ensures value { result ≡ at + n + 1 }
{
    let all = &head[..];
    put_text(out, at, &all[0..8]);
    put_byte(out, at + n, last)
}

// Writes the row of a kind at index `at` of out, in one move; answers the index after the text in it. The rest of the row spills.
fn put_row(out: &mut [u8], at: usize, table: &[u8; 90], kind: u16) -> usize
    requires { (table.now ≡ rows) × (at + 8 ≤ length out.old) }
    ensures { Spills (up_to_number kind) at out.old out.new result }
{
    let all = &table[..];
    let k = least(kind as usize, 9);
    let i = 8 * k;
    let e = i + 8;
    put_text(out, at, &all[i..e]);
    at + (table[80 + k] % 16) as usize
}

// Whether a number follows in the line of an answer of this kind.
fn numbered(table: &[u8; 90], kind: u16) -> bool
    requires { table.now ≡ rows }
    ensures { result ≡ has_number kind }
{
    table[80 + least(kind as usize, 9)] >= 16
}

// Whether a status follows the number.
fn has_status(table: &[u8; 90], kind: u16) -> bool
    requires { table.now ≡ rows }
    ensures { result ≡ has_status kind }
{
    table[80 + least(kind as usize, 9)] >= 32
}

// Writes the digit of x at a unit at index `at` of out; answers the index after it. Where it is a zero before x's digits it spills, and the
// answer is `at`: no branch is needed.
fn put_lead(out: &mut [u8], at: usize, x: u64, unit: u64) -> usize
    requires { (1 ≤ unit) × (at < length out.old) }
    ensures spills { Spills (lead_of x unit) at out.old out.new result }
    ensures upper_bound { result ≤ at + 1 }
{
    let next = put_byte(out, at, 48 + (x / unit % 10) as u8);
    if x < unit {
        return at;
    }
    next
}

// Writes a number below 100,000,000 in decimal at index `at` of out, from its first digit on; answers the index after it.
fn put_short(out: &mut [u8], at: usize, x: u64) -> usize
    requires { (x < 100000000) × (at + 8 ≤ length out.old) }
    ensures { Spills (decimal x) at out.old out.new result }
{
    let mut end = at;
    // The units are divided and not counted: a `for` over them would list seven.
    let mut unit = 10000000;
    while unit > 1 {
        end = put_lead(out, end, x, unit);
        unit /= 10;
    }
    put_byte(out, end, 48 + (x % 10) as u8)
}

// Writes a number in decimal at index `at` of out; answers the index after it. One digit, and then at most eight, are written at once.
fn spill_decimal(out: &mut [u8], at: usize, x: u64) -> usize
    requires { at + 20 ≤ length out.old }
    ensures { Spills (decimal x) at out.old out.new result }
{
    if x < 10 {
        return put_byte(out, at, 48 + (x % 10) as u8);
    }
    if x < 100000000 {
        return put_short(out, at, x);
    }
    put_decimal(out, at, x)
}

// Writes the status in the line of an answer of this kind, if it has one, at index `at` of out; answers the index after it. A few bytes spill.
fn spill_status(out: &mut [u8], at: usize, table: &[u8; 90], kind: u16, status: u64) -> usize
    requires { (table.now ≡ rows) × (at + 21 ≤ length out.old) }
    ensures { Spills (status_part kind status) at out.old out.new result }
{
    if has_status(table, kind) {
        let next = put_byte(out, at, 32);
        return spill_decimal(out, next, status);
    }
    at
}

// Writes what follows a record's number in its line at index `at` of out, where the kind has no status in it; answers the index after it. A few
// bytes spill.
fn spill_parts(
    out: &mut [u8],
    at: usize,
    table: &[u8; 90],
    kind: u16,
    status: u64,
    number: u64,
) -> usize
    requires { (table.now ≡ rows) × (at + 50 ≤ length out.old) }
    ensures { Spills (tail_with kind status number) at out.old out.new result }
{
    let next = put_row(out, at, table, kind);
    if numbered(table, kind) {
        let end = spill_decimal(out, next, number);
        let last = spill_status(out, end, table, kind, status);
        return put_byte(out, last, 10);
    }
    next
}

// The same, of a kind with its status.
fn spill_tail(out: &mut [u8], at: usize, table: &[u8; 90], kind: u16, number: u64) -> usize
    requires { (table.now ≡ rows) × (at + 50 ≤ length out.old) }
    ensures { Spills (tail_from kind number) at out.old out.new result }
{
    spill_parts(out, at, table, kind % 256, (kind / 256) as u64, number)
}

// Writes the line of a record at index `at` of out; answers the index after it. The first n bytes of `head` and `last` are the digits of
// its number. A few bytes spill.
fn spill_line(
    out: &mut [u8],
    at: usize,
    table: &[u8; 90],
    head: &[u8; 20],
    n: usize,
    last: u8,
    kind: u16,
    number: u64,
) -> usize
    requires { (table.now ≡ rows) × (n ≤ 8) × (at + 70 ≤ length out.old) }
    ensures { Spills (take n head.now ++ (last ∷ []) ++ tail_from kind number) at out.old out.new result }
{
    let space = put_number(out, at, head, n, last);
    spill_tail(out, space, table, kind, number)
}

// Writes what follows a record's number in its line at index `at` of out, and nothing after it; answers the index after it.
fn put_tail(out: &mut [u8], at: usize, kind: u16, number: u64) -> usize
    requires { at + 50 ≤ length out.old }
    ensures { Appended (tail_from kind number) at out.old out.new result }
{
    let table = ROWS;
    let mut tail = [0u8; 50];
    let n = spill_tail(&mut tail, 0, &table, kind, number);
    let all = &tail[..];
    put_text(out, at, &all[0..n])
}

// Writes the line of the record whose number the places spell, with its answer's kind and number, at index `at` of out; answers the index
// after it. Where fewer than 70 bytes are left from `at` on, writes nothing and answers `at`: no line is longer.
fn write_line(
    out: &mut [u8],
    at: usize,
    places: &[u8; 20],
    start: usize,
    kind: u16,
    number: u64,
) -> usize
    requires { start ≤ 20 }
    ensures { (n : ℕ) → Spelled n places.now start → LineAppended n kind number at out.old out.new result }
{
    if out.len() < at {
        return at;
    }
    if out.len() - at < 70 {
        return at;
    }
    let space = put_digits(out, at, places, start);
    put_tail(out, space, kind, number)
}

// Writes the digits from place `start` on at the start of `head`; answers how many they are.
fn put_front(head: &mut [u8; 20], places: &[u8; 20], start: usize) -> usize
    requires { start ≤ 20 }
    ensures { Appended (drop start places.now) 0 head.old head.new result }
{
    put_digits(head, 0, places, start)
}

// Writes the digits of the tens of `first`, from place `start` on, at the start of `head`; answers how many they are: none below 10.
fn put_tens(head: &mut [u8; 20], places: &[u8; 20], start: usize, first: u64) -> usize
    requires { Spelled (first / 10) places.now start }
    ensures { take result head.new ≡ tens_of (first / 10) }
{
    if first < 10 {
        return 0;
    }
    put_front(head, places, start)
}

// How many lines are written, and the index after them.
#[derive(Clone, Copy)]
struct Part {
    done: usize,
    at: usize,
}

// Writes the lines of the answers from `from` to `end`, whose numbers have the same tens, from index `begun` of out on; answers the index after
// them. The first n bytes of `head` are the digits of the tens, and `digit` is the last digit of the first number. A few bytes spill.
fn spill_lines(
    out: &mut [u8],
    begun: usize,
    table: &[u8; 90],
    head: &[u8; 20],
    n: usize,
    digit: u8,
    kinds: &[u16],
    numbers: &[u64],
    from: usize,
    end: usize,
) -> usize
    requires { (table.now ≡ rows)
        × (n ≤ 8)
        × (from ≤ end)
        × (digit + (end - from) ≤ 58)
        × (end ≤ length kinds.now)
        × (end ≤ length numbers.now)
        × (begun + 70 * (end - from) ≤ length out.old) }
    ensures { (d : List ℕ) (first most : ℕ)
        → Partly d first kinds.now numbers.now most out.old begun from
        → OneTen first most (length d) (take n head.now) digit begun from end
        → Partly d first kinds.now numbers.now most out.new result end }
{
    let mut at = begun;
    let mut last = digit;
    let mut k = from;
    while k < end {
        at = spill_line(out, at, table, head, n, last, kinds[k], numbers[k]);
        last += 1;
        k += 1;
    }
    at
}

// Writes lines from the start of out as long as two more follow, which cover the bytes that spill. The number is kept as its last digit and
// the digits of its tens; the lines of a ten are written at once, and after them one is added to the tens.
fn begin_lines(out: &mut [u8], first: u64, kinds: &[u16], numbers: &[u64], most: usize) -> Part
    requires { (most ≤ length kinds.now) × (most ≤ length numbers.now) }
    ensures partly { Partly out.old first kinds.now numbers.now most out.new result.at result.done }
    ensures done_bound { first + result.done < 18446744073709551616 }
{
    if ((most < 3) | (4294967295 < most)) | ((out.len() < 840) | (4294967295 < first)) {
        return Part { done: 0, at: 0 };
    }
    let table = ROWS;
    let mut places = [48u8; 20];
    let mut start = spell(&mut places, first / 10);
    let mut head = [48u8; 20];
    let mut n = put_tens(&mut head, &places, start, first);
    let mut last = 48 + (first % 10) as u8;
    let stop = most - 2;
    let limit = out.len() - 840;
    let mut at = 0;
    let mut k = 0;
    while ((k < stop) & (at <= limit)) & (n <= 8) {
        let end = least(stop, k + (58 - last) as usize);
        at = spill_lines(out, at, &table, &head, n, last, kinds, numbers, k, end);
        start = count_up(&mut places, start);
        n = put_front(&mut head, &places, start);
        last = 48;
        k = end;
    }
    Part { done: k, at }
}

// Writes the lines from that of answer `from` on, each exactly, from index `begun` of out on; answers the index after them. The number is
// kept as its digits, so that each line only adds one.
fn end_lines(
    out: &mut [u8],
    first: u64,
    kinds: &[u16],
    numbers: &[u64],
    most: usize,
    from: usize,
    begun: usize,
) -> usize
    requires { (most ≤ length kinds.now) × (most ≤ length numbers.now) × (first + from < 18446744073709551616) }
    ensures { (d : List ℕ)
        → Partly d first kinds.now numbers.now most out.old begun from
        → Partly d first kinds.now numbers.now most out.new result most }
{
    let mut places = [48u8; 20];
    let mut start = spell(&mut places, first + from as u64);
    let mut at = begun;
    let mut k = from;
    while k < most {
        at = write_line(out, at, &places, start, kinds[k], numbers[k]);
        start = count_up(&mut places, start);
        k += 1;
    }
    at
}

// Writes the lines of the first `count` answers of a buffer, or of all where it has fewer, from the start of out, the first with the
// number `first`; answers how many bytes they have.
pub fn write_lines(
    out: &mut [u8],
    first: u64,
    kinds: &[u16],
    numbers: &[u64],
    count: usize,
) -> usize
    ensures { LinesWritten out.old first kinds.now numbers.now count result out.new }
{
    let most = least(count, least(kinds.len(), numbers.len()));
    let begun = begin_lines(out, first, kinds, numbers, most);
    end_lines(out, first, kinds, numbers, most, begun.done, begun.at)
}

// Writes the line of one record, which has the number n, with its answer, at the start of out; answers how many bytes it has.
pub fn write_answer(out: &mut [u8], n: u64, answer: Answer) -> usize
    ensures { LinesWritten out.old n (kind_of answer ∷ []) (number_of answer ∷ []) 1 result out.new }
{
    let kinds = [answers::kind(answer)];
    let numbers = [answers::number(answer)];
    write_lines(out, n, &kinds, &numbers, 1)
}
