// A list of calls on a new station.
ghost use Rattle.std.specs.Prelude.{◌≡◌, ◌≤◌, length, IfOk};
ghost use Rattle.std.specs.List.{AllByRecursion};
ghost use Rattle.code.specs.Model.{Numbered, asked};
ghost use Rattle.station.specs.Book.{empty_book};
ghost use Rattle.station.specs.Calls.{Typed, answers_from, book_after};
ghost use Rattle.station.specs.Fitting.{Admitted};
ghost use Rattle.station.specs.Items.{items};
ghost use Rattle.runs.specs.Pledge.{StationsPromise};
ghost use Rattle.runs.specs.Numbers.{AllByNumbers};
ghost use Rattle.runs.specs.Ruling.{AllByRules};
ghost use Rattle.station.specs.Outcomes.{plain_calls, outcomes_seen};

use code::kind::Kind;
use station::call::{Call, Ran};
use station::station::Station;
use std::alloc::{AllocError, Global};

// Makes every call of a list, one after the other, on a new station over the bank: any list, refused calls included.
// The outcomes are the defined ones, call by call, each by its call's rules, and with a number of its call's own over a bank that refuses by its own; and
// the book is the plain book. So all that is defined is promised: what stations over banks that keep the two laws make of one another's frames.
pub fn run<'a, K: Kind + Drop>(
    heap: Global,
    bank: K,
    calls: &[Call<'a>],
) -> Result<Ran<'a, K>, AllocError>
    ensures outcomes { IfOk result (λ d. outcomes_seen d.outcomes.items ≡ answers_from (asked (K.model bank)) empty_book (plain_calls calls.now)) }
    ensures book { IfOk result (λ d. items d.station.book ≡ book_after (asked (K.model bank)) (plain_calls calls.now)) }
    ensures promises { StationsPromise }
    ensures bank { IfOk result (λ d. K.model d.station.bank ≡ K.model bank) }
    ensures admitted { IfOk result (λ d. Admitted (asked (K.model bank)) (items d.station.book)) }
    ensures few { IfOk result (λ d. length (items d.station.book).entries ≤ 16) }
    ensures numbers { IfOk result (λ d. Numbered (K.model bank) → AllByNumbers (plain_calls calls.now) (outcomes_seen d.outcomes.items)) }
    ensures ruled { IfOk result (λ d. (AllByRecursion Typed (plain_calls calls.now) → AllByRules (K.model bank) empty_book (plain_calls calls.now) (outcomes_seen d.outcomes.items))) }
{
    let mut station = Station::new(bank);
    let mut outcomes = Vec::new(heap);
    for call in calls {
        let outcome = station.perform(heap, *call)?;
        outcomes.push(outcome)?;
    }
    Ok(Ran { station, outcomes })
}
