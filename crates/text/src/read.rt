ghost use Rattle.std.specs.Prelude.{◌<◌, IfOk, vec_len};

use crate::fault::{ReadFault, Reason, TextFault};
use crate::request::Request;
use bay::slot::Slot;
use bay::work::WorkBay;
use model::numbers::{CallNumber, CrateNumber};
use std::alloc::Global;
use std::num::NonZeroU16;
use std::str::SplitWhitespace;

// What is wrong with a line, at a word counted from 1.
#[derive(Clone, Copy)]
struct WordFault {
    word: usize,
    reason: Reason,
}

impl Reason {
    fn at(self, word: usize) -> WordFault {
        WordFault { word, reason: self }
    }
}

impl WordFault {
    fn on_line(self, line: usize) -> TextFault {
        let WordFault { word, reason } = self;
        TextFault { line, word, reason }
    }
}

// A crate word: a crate number, alone or with ':' and its call number.
fn read_crate(word: &str) -> Result<Slot, Reason> {
    let (number, call) = match word.split_once(':') {
        Some((number, call)) => (number, Some(call)),
        None => (word, None),
    };
    let number = number.parse().map_err(|_| Reason::Crate)?;
    let call = match call {
        Some(call) => call.parse::<NonZeroU16>().map_err(|_| Reason::Call)?.get(),
        // An uncalled crate has call number zero.
        None => 0,
    };
    Ok(Slot {
        number: CrateNumber { number },
        call: CallNumber { number: call },
    })
}

fn add_stack(bay: &mut WorkBay, word: &str) -> Result<(), Reason> {
    let clearance = word.parse().map_err(|_| Reason::Clearance)?;
    bay.add_stack(clearance)?;
    Ok(())
}

// One crate more on top of the last stack.
fn add_crate(bay: &mut WorkBay, word: &str) -> Result<(), Reason> {
    let slot = read_crate(word)?;
    bay.add_crate(bay.count(), slot)?;
    Ok(())
}

// One stack more: after 'stack' its clearance, then its crates from the bottom up.
fn read_stack(bay: &mut WorkBay, mut words: SplitWhitespace<'_>) -> Result<(), WordFault> {
    let clearance = words.next().ok_or(Reason::NoClearance.at(2))?;
    add_stack(bay, clearance).map_err(|reason| reason.at(2))?;
    for (place, word) in (3..).zip(words) {
        add_crate(bay, word).map_err(|reason| reason.at(place))?;
    }
    Ok(())
}

// The one word that a setting takes.
fn setting<'a>(mut words: SplitWhitespace<'a>, missing: Reason) -> Result<&'a str, WordFault> {
    let value = words.next().ok_or(missing.at(2))?;
    match words.next() {
        Some(_) => Err(Reason::Extra.at(3)),
        None => Ok(value),
    }
}

// Reads one line into the request that is being put together.
fn read_line(request: &mut Request, line: &str) -> Result<(), WordFault> {
    let mut words = line.split_whitespace();
    match words.next() {
        None => {}
        Some(first) if first.starts_with('#') => {}
        Some("stack") => read_stack(&mut request.bay, words)?,
        Some("bound") => {
            let bound = setting(words, Reason::NoBound)?;
            request.bound = bound.parse().map_err(|reason: Reason| reason.at(2))?;
        }
        Some("budget") => {
            let budget = setting(words, Reason::NoBudget)?;
            request.budget = budget.parse().map_err(|_| Reason::Budget.at(2))?;
        }
        Some(_) => return Err(Reason::UnknownLine.at(1)),
    }
    Ok(())
}

// Whether a line stands between two requests.
fn separates(line: &str) -> bool {
    line.split_whitespace().next() == Some("next")
}

// Reads the requests of a text, line by line; a line that begins with 'next' begins another one.
pub fn read_requests(alloc: Global, text: &str) -> Result<Vec<Request>, ReadFault>
    ensures { IfOk result (λ all. 0 < vec_len all) }
{
    let mut all = Vec::new(alloc);
    let mut request = Request::new();
    for (number, line) in (1..).zip(text.lines()) {
        if separates(line) {
            all.push(request)?;
            request = Request::new();
        } else {
            read_line(&mut request, line).map_err(|fault| fault.on_line(number))?;
        }
    }
    all.push(request)?;
    Ok(all)
}
