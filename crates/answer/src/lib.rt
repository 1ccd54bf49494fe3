// The answers as C has them: 32-bit numbers, laid out as C lays out a struct, and 01's numbers where the answer is an enum.
#![tactic(auto)]

ghost use Rattle.std.specs.Prelude.{◌≡◌, ◌<◌};
ghost use Rattle.judge.specs.Answer as reader;
ghost use Rattle.test.specs.Tested.{code_of, yes_of};
ghost use Rattle.instance.specs.Instance.{code_given, rows_given};
ghost use Rattle.lister.specs.Listed.{told};
ghost use Rattle.answer.specs.Answers.{number};

use meaning::Refusal;
use search::Found;

// Codes and other numbers side by side, and no Result: these are the structs that C is given.
#[repr(C)]
#[derive(Drop)]
pub struct Reading {
    pub code: u32,
    pub place: u32,
    pub rows: u32,
}

#[repr(C)]
#[derive(Drop)]
pub struct Listing {
    pub code: u32,
    pub ending: u32,
    pub records: u32,
    pub tries: u32,
}

#[repr(C)]
#[derive(Drop)]
pub struct Testing {
    pub code: u32,
    pub yes: u32,
}

#[repr(C)]
#[derive(Drop)]
pub struct Making {
    pub code: u32,
    pub rows: u32,
}

// `length` bytes from `start` of the dictionary (source 0) or of the document (source 1).
#[repr(C)]
#[derive(Drop)]
pub struct Part {
    pub source: u32,
    pub start: u32,
    pub length: u32,
}

pub fn of_reader(answer: Result<u32, judge::refusal::Refusal>) -> Reading
    ensures { (result.code ≡ reader.code_of answer) × (result.place ≡ reader.place_of answer) × (result.rows ≡ reader.rows_of answer) }
{
    match answer {
        Ok(rows) => Reading {
            code: 0,
            place: 0,
            rows,
        },
        Err(refusal) => Reading {
            code: u32::from(refusal),
            place: refusal.place(),
            rows: 0,
        },
    }
}

pub fn of_lister(answer: Result<Found, Refusal>) -> Listing
    requires { (told answer).records < 4294967296 }
    ensures { told answer ≡ record { code = result.code; ending = result.ending; records = result.records; tries = result.tries } }
{
    match answer {
        Ok(found) => Listing {
            code: 0,
            ending: u32::from(found.ending),
            records: found.records as u32,
            tries: found.tries,
        },
        Err(refusal) => Listing {
            code: u32::from(refusal),
            ending: 0,
            records: 0,
            tries: 0,
        },
    }
}

pub fn of_test(answer: Result<bool, Refusal>) -> Testing
    ensures { (result.code ≡ code_of answer) × (result.yes ≡ number (yes_of answer)) }
{
    match answer {
        Ok(yes) => Testing {
            code: 0,
            yes: u32::from(yes),
        },
        Err(refusal) => Testing {
            code: u32::from(refusal),
            yes: 0,
        },
    }
}

pub fn of_instance(answer: Result<usize, Refusal>) -> Making
    requires { rows_given answer < 4294967296 }
    ensures { (result.code ≡ code_given answer) × (result.rows ≡ rows_given answer) }
{
    match answer {
        Ok(rows) => Making {
            code: 0,
            rows: rows as u32,
        },
        Err(refused) => Making {
            code: u32::from(refused),
            rows: 0,
        },
    }
}
