// What is rated on: the mixture, the chosen systems and the inert mixture of what was simplified, with the facts that a
// rating of it needs; the answer to a proposed split of it, and what the search of it comes to.

ghost use Rattle.std.specs.Prelude.{◌≡◌, ◌*◌, ◌≤◌, min, IfOk, IfErr};
ghost use Rattle.split.specs.Split.{record_count};
ghost use Rattle.split.specs.Rating.{rating_of, proposed_of, spread_limit};
ghost use Rattle.split.specs.Inner.Proposed.{Proposal};
ghost use Rattle.split.specs.Fits.{Fit};
ghost use Rattle.split.specs.Find.{find_of};
ghost use Rattle.split.specs.Search.{first_level};
ghost use Rattle.outcome.specs.Rate.{most_rounds, split_by, found_outcome, Judged};
ghost use Rattle.outcome.specs.RatedOn.{Suffices};
ghost use Rattle.rating.specs.Inner.Given.{FoundFit, Simplifies, OfGas, ReadyFor, TurnedAway};

use crate::refused;
use mixture::Simplified;
use outcome::Outcome;
use refusal::Refusal;
use sheet::Split;
use split::{Answer, CELLS, Found, Search};
use systems::{COMPONENTS, Choice};

// The spread limit in units, 0.05 of a methane number.
const LIMIT: u64 = 500000;

// The level of the first stride, 65536 = 2^16.
const FIRST_LEVEL: usize = 16;

// The most rounds of a search.
pub(crate) const ROUNDS: u32 = 4000;

// The fewest components present that a mixture is rated with.
const FEWEST: u32 = 2;

// A mixture, its chosen systems and the n1 of its inert mixture, all of them fit for a rating.
#[derive(Clone, Copy, Debug, PartialEq, Eq)]
pub(crate) struct Ready {
    choice: Choice,
    mix: [u32; COMPONENTS],
    n1: u32,
    ghost proposal: { Proposal mix choice.systems choice.count n1 },
    ghost room: { 3 * choice.count ≤ record_count },
}

impl Ready {
    // What was simplified, with its chosen systems: refused as it was, or 16.
    pub(crate) fn new(simplified: Result<Simplified, Refusal>) -> Result<Ready, Refusal>
        requires { OfGas simplified }
        ensures ready { (gas : Judged) → Suffices gas → Simplifies gas simplified
            → IfOk result (λ ready. ReadyFor gas ready.mix ready.choice ready.n1) }
        ensures refused { (gas : Judged) → Suffices gas → Simplifies gas simplified
            → IfErr result (λ refusal. TurnedAway gas refusal) }
    {
        let simplified = simplified?;
        let mix = simplified.mixture.amounts;
        if choice::present_count(mix) < FEWEST {
            return Err(Refusal::TooFew);
        }
        Ok(Ready {
            choice: choice::choose(mix),
            mix,
            n1: simplified.inert,
        })
    }

    // The answer to a proposed split.
    pub(crate) fn rate_split(&self, split: Split) -> Answer
        ensures { result ≡ split_by self.now.choice.systems self.now.choice.count self.now.mix self.now.n1 split }
    {
        let Choice { systems, count } = self.choice;
        let fits = split_records::fits(systems, count, split.count, split.systems, split.codes);
        if !fits {
            return Refusal::Misfit.into();
        }
        self.proposed(
            LIMIT,
            split_records::cells_of(systems, count, split.amounts),
        )
    }

    // The search with so many rounds, and no more than the most.
    pub(crate) fn search(&self, allowance: u32) -> Found
        ensures { result ≡ find_of self.now.mix self.now.choice.systems self.now.choice.count
            spread_limit first_level (min allowance most_rounds) }
    {
        let rounds = at_most(allowance);
        search::find(self.mix, self.choice, LIMIT, FIRST_LEVEL, rounds)
    }

    // What a search that was made came to: a rating with its split, or 11.
    pub(crate) fn outcome_of(&self, found: Found) -> Outcome
        requires { FoundFit self.now.mix self.now.choice.systems self.now.choice.count found }
        ensures { result ≡ found_outcome self.now.choice.systems self.now.choice.count self.now.n1 found }
    {
        match found.search {
            Search::Unfit => unreachable!(),
            Search::Unbalanced => refused(Refusal::Unbalanced),
            Search::Balanced { spread, rounds } => Outcome {
                answer: Answer::Rated {
                    rating: self.rating_of(found.cells),
                    spread,
                    rounds,
                },
                split: split_records::split_of(self.choice.systems, self.choice.count, found.cells),
            },
        }
    }

    // The rating of cells that are fit.
    fn rating_of(&self, cells: [u32; CELLS]) -> i64
        requires { Fit spread_limit self.now.choice.systems self.now.choice.count self.now.mix cells }
        ensures { result ≡ rating_of self.now.choice.systems self.now.choice.count cells self.now.n1 }
    {
        match self.proposed(LIMIT, cells) {
            Answer::Rated { rating, .. } => rating,
            Answer::Refused { .. } => unreachable!(),
        }
    }

    // The answer to cells proposed as a split, under a spread limit.
    fn proposed(&self, limit: u64, cells: [u32; CELLS]) -> Answer
        ensures { result
            ≡ proposed_of limit self.now.choice.systems self.now.choice.count self.now.mix cells self.now.n1 }
    {
        proposal::proposed(limit, self.choice, self.mix, cells, self.n1).unwrap()
    }
}

// The allowance, and no more than the most rounds.
fn at_most(allowance: u32) -> u32
    ensures { result ≡ min allowance most_rounds }
{
    allowance.min(ROUNDS)
}
