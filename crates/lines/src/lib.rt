// A line: `WORD | TEXT | LIST / LIST / ..`. A list is numbers with spaces between; `N*C` is N repeated C times, and `A..B` counts down from A to B.
#![tactic(auto)]

ghost use Rattle.std.specs.Prelude.{OnOk};
ghost use Rattle.std.specs.Fn.{FnReturnsAt};
ghost use Rattle.lines.specs.Lines.{EachLine};

pub mod fields;
pub mod lists;

pub use lists::read_lists;
use std::io;
use std::io::Read;

// The word is section 0, the text 1, and the lists 2; a section ends at the space in front of a bar, and begins after the one behind it.
pub fn section(line: &[u8], number: usize) -> &[u8] {
    let section = fields::field(line, b'|', number);
    let section = section.strip_prefix(b" ").unwrap_or(section);
    section.strip_suffix(b" ").unwrap_or(section)
}

// The number that the digits write, if it is below 2^32.
pub fn number(digits: &[u8]) -> Option<u32> {
    if !digits.iter().all(|digit| digit.is_ascii_digit()) {
        return None;
    }
    str::from_utf8(digits).ok()?.parse().ok()
}

// Has each of the text's lines answered, up to the first that fails.
fn answer_lines<F: Fn(&[u8]) -> io::Result<()>>(text: &[u8], answer: F) -> io::Result<()>
    requires { F.IsAlwaysCallable answer }
    ensures { OnOk result (EachLine (λ line. FnReturnsAt F.Fn answer line (Ok tt)) text.now) }
{
    let mut rest = text;
    while let Some((line, behind)) = fields::cut(rest, b'\n') {
        answer(line)?;
        rest = behind;
    }
    if rest.is_empty() {
        return Ok(());
    }
    answer(rest)
}

// Reads standard input, and has each of its lines answered.
pub fn answer_each<F: Fn(&[u8]) -> io::Result<()>>(
    rt: &(impl Input + Print + AllocGlobal),
    answer: F,
) -> io::Result<()>
    requires { F.IsAlwaysCallable answer }
{
    let mut text = Vec::new(rt.alloc());
    let bytes = rt.reader().take(65536).read_to_end(&mut text)?;
    answer_lines(&text, answer)?;
    if bytes == 65536 {
        println!(rt; "the input is too long")?;
    }
    Ok(())
}

#[cfg(test)]
mod tests {
    use super::*;
    use std::io::{Error, ErrorKind};
    use std::test::Fail;

    fn answer(line: &[u8]) -> io::Result<()> {
        match line {
            b"" | b"ab" => Ok(()),
            _ => Err(Error::from(ErrorKind::InvalidData)),
        }
    }

    // The line feed is no part of a line, and the last line may have none.
    #[test]
    fn answers_lines(rt: HostRuntime) -> Result<(), Fail> {
        answer_lines(b"ab\n\nab", |line| answer(line))?;
        answer_lines(b"ab\n", |line| answer(line))?;
        assert!(rt; answer_lines(b"ab\nc\nab", |line| answer(line)).is_err());
        Ok(())
    }

    // The standard input of a test is empty.
    #[test]
    fn answers_no_line(rt: HostRuntime) -> Result<(), Fail> {
        answer_each(&rt, |_| Err(Error::from(ErrorKind::InvalidData)))?;
        Ok(())
    }
}
