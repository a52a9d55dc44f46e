ghost use Rattle.std.specs.Prelude.{◌≡◌, ◌+◌, ◌-◌, ◌*◌, ◌<◌, ◌≤◌, MatchOption};
ghost use Rattle.design.specs.Plan.{Plan};
ghost use Rattle.planner.specs.Search.{Held, Narrowed, Searched};
ghost use Rattle.planner.specs.Left.{left};

use crate::entry::Entry;
use crate::search::Search;
use judge::Judge;

// A plan with its costs.
fn entry_of<J: Judge>(judge: &J, word: u64) -> Entry
    requires { Plan J.Judge.scales (J.Judge.meaning judge.now) word }
    ensures held { Held J.Judge.scales (J.Judge.meaning judge.now) result }
    ensures word { result.word ≡ word }
{
    let (a, b) = judge.costs(word);
    Entry { a, b, word }
}

// One seek of a search: half-way between the least cost still possible and the best one found,
// rounded down, first in A and then in B.
fn narrow<J: Judge>(judge: &mut J, search: Search) -> Search
    requires narrowed { Narrowed J.Judge.scales (J.Judge.meaning judge.old) search }
    requires unfinished { 0 < left search }
    ensures narrowed { Narrowed J.Judge.scales (J.Judge.meaning judge.old) result }
    ensures bound { result.most ≡ search.most }
    ensures less { left result < left search }
    ensures same { J.Judge.meaning judge.new ≡ J.Judge.meaning judge.old }
{
    let Search {
        most,
        best,
        least_a,
        least_b,
    } = search;
    if least_a < best.a {
        let middle = least_a + (best.a - least_a) / 2;
        match judge.seek(middle, most) {
            Some(word) => Search {
                best: entry_of(judge, word),
                ..search
            },
            None => Search {
                least_a: middle + 1,
                ..search
            },
        }
    } else {
        let middle = least_b + (best.b - least_b) / 2;
        match judge.seek(best.a, middle) {
            Some(word) => Search {
                best: entry_of(judge, word),
                ..search
            },
            None => Search {
                least_b: middle + 1,
                ..search
            },
        }
    }
}

// The plan of the least A among those with B at most `most`, and among them of the least B.
pub(crate) fn find_least<J: Judge>(judge: &mut J, most: u8) -> Option<Entry>
    ensures answer { Searched J.Judge.scales (J.Judge.meaning judge.old) most result }
    ensures same { J.Judge.meaning judge.new ≡ J.Judge.meaning judge.old }
{
    let word = judge.seek(255, most)?;
    let best = entry_of(judge, word);
    let mut search = Search {
        most,
        best,
        least_a: 0,
        least_b: 0,
    };
    while search.least_a < search.best.a || search.least_b < search.best.b {
        search = narrow(judge, search);
    }
    Some(search.best)
}
