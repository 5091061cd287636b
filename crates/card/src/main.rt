// Reads a card from standard input and prints what answers it: status, filtered and, at status 0, the rows.
// At most so many bytes are read as decide what an input means, however long it is. A read that fails ends the input, as its end does.
#![tactic(auto)]

use card_reader::INPUT_SIZE;

fn main() {
    let mut input = [0u8; INPUT_SIZE];
    let n = io::read_full(0, &mut input);
    card_print::print_answer(&input[..n]);
}
