// Reads a ROM image from standard input and prints one line: what 1,000 steps after reset come to.
#![tactic(auto)]

const STDIN_FILENO: i32 = 0;

const STDOUT_FILENO: i32 = 1;

fn main() {
    // One byte more than an image may have, so that a longer one shows.
    let mut image = [0u8; 32769];
    let n = io::read_full(STDIN_FILENO, &mut image);
    let l = line::for_image(&image[..n]);
    io::write_all(STDOUT_FILENO, l.as_slice());
}
