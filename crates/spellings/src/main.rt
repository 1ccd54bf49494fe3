// Prints the spellings of nine rows, by the dictionary g, f, h, a, b and then by a bad one, which has no names.
#![tactic(auto)]

use std::io;

const DOCUMENT: [u8; 14] = *b"<g>a<query/>  ";

// Row 0 has the label of a name as an element, row 1 the last label of a name, as a text, with a range outside the document, row 2 has the
// first label behind the names and a range of five bytes, row 3 the largest label and a range that reaches the document's end, row 4 one that
// goes a byte beyond it, row 5 one that starts beyond it. Rows 6, 7 and 8 are beyond one list, two and all of them.
const LABEL: [u32; 8] = [0, 9, 10, 65535, 11, 14, 7, 7];

const START: [u32; 7] = [1, 99, 5, 9, 9, 4294967295, 3];

const LENGTH: [u32; 6] = [1, 1, 5, 5, 6, 4294967295];

fn print_row(rt: &impl Print, dictionary: &[u8], row: usize) -> io::Result<()> {
    print!(rt; "[")?;
    rt.write_all(dictionary::spelling::spelling(
        dictionary, &DOCUMENT, &LABEL, &START, &LENGTH, row,
    ))?;
    println!(rt; "]")
}

fn print_rows(rt: &impl Print, dictionary: &[u8]) -> io::Result<()> {
    for row in 0..9 {
        print_row(rt, dictionary, row)?;
    }
    Ok(())
}

fn main(rt: HostRuntime) -> io::Result<()> {
    print_rows(&rt, b"g\nf\nh\na\nb\n")?;
    print_rows(&rt, b"g\ng\n")
}
