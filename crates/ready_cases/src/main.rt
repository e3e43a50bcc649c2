// When lent memory counts as set up (H8). The theorem `ready-exact` (crates/simulation) says of every memory that it does exactly where each number in
// it is in its range, and the contract of `ready::ready` that the code asks just that. What a run adds is that the code as built does so: one number
// of each kind is put at the largest value in its range, and at one more, each alone in memory that is in its ranges. A line names the number and
// the value, and says whether the memory counts as set up then. What records are answered where it does not is in the runs of `hublog` and `eachlog`.
#![tactic(auto)]

mod memory;

// The numbers, in their order, and their largest values.
const NAMES: [[u8; 32]; 33] = [
    *b"P = 16                          ",
    *b"V = 256                         ",
    *b"N = 2048                        ",
    *b"free slots = N - V              ",
    *b"queued pools = 1                ",
    *b"queued ranges = 2B              ",
    *b"first length = first range      ",
    *b"first range = 2048              ",
    *b"rows of totals = 1024           ",
    *b"rows of rights = 64             ",
    *b"B = 64                          ",
    *b"newest slot = N - 1             ",
    *b"free slot = N - 1               ",
    *b"older neighbour = N - 1         ",
    *b"newer neighbour = N - 1         ",
    *b"queued slot = N - 1             ",
    *b"length - queued ranges = 0      ",
    *b"slot in hand = N - 1            ",
    *b"register of a row = V - 1       ",
    *b"worker of a row = 15            ",
    *b"slots lent = N - 1              ",
    *b"rights of a row = 15            ",
    *b"length of local pool = B        ",
    *b"slot in local pool = N - 1      ",
    *b"register = V - 1                ",
    *b"slot = N - 1                    ",
    *b"ranges in hand = 4B             ",
    *b"times read = P                  ",
    *b"row of total = its last row     ",
    *b"sum + = 31 * 999999999999       ",
    *b"sum - = 31 * 999999999999       ",
    *b"mark kept = 11                  ",
    *b"mark read = 11                  ",
];

fn write(rt: &impl Print, bytes: &[u8]) {
    let _ = rt.write_all(bytes);
}

fn name_of(k: usize) -> [u8; 32] {
    NAMES[k % 33]
}

fn write_word(rt: &impl Print, yes: bool) {
    if yes {
        write(rt, b"yes");
    } else {
        write(rt, b"no");
    }
}

// Whether memory counts as set up where number k has this value.
fn ready_with(k: usize, value: u64) -> bool {
    let mut x = memory::usual();
    x[k / 11 % 3][k % 11] = value;
    memory::is_ready(x)
}

// Number k at this value and at one more, under a name.
fn show(rt: &impl Print, name: &[u8], k: usize, value: u64) {
    write(rt, name);
    write_word(rt, ready_with(k, value));
    write(rt, b", one more: ");
    write_word(rt, ready_with(k, value.wrapping_add(1)));
    write(rt, b"\n");
}

// Each number at its limit.
fn show_all(rt: &impl Print) {
    let limits = memory::limits();
    for k in 0..33usize {
        let name = name_of(k);
        show(rt, &name, k, limits[k / 11][k % 11]);
    }
}

fn main(rt: HostRuntime) {
    show_all(&rt);
    // The list in hand has no more ranges than there are slots besides the newest versions.
    show(&rt, b"N = 4B + V - 1                  ", 2, 61);
    // Behind the workers all marks are read at once.
    show(&rt, b"times read = P + 11             ", 27, 17);
    show(&rt, b"times read = P + 12             ", 27, 18);
}
