use crate::draft::Draft;
use design::Price;
use scales::Scale;
use std::alloc::{AllocError, Global};

// What all settings of a draft come to: for each bound on cost A, the least cost B of the settings
// that meet the rules within it.
#[derive(Drop)]
pub struct Sweep {
    least_b: Vec<Option<u8>>,
}

impl Sweep {
    pub fn of<A: Scale, B: Scale>(draft: &Draft) -> Result<Sweep, AllocError> {
        let mut sweep = Sweep {
            least_b: vec![in draft.heap; None; 256]?,
        };
        let step = power_of_two(draft.sizes.choices.saturating_sub(draft.span));
        let words = (0..power_of_two(draft.span.min(16))).map(|k| k.wrapping_mul(step));
        for word in words.filter(|word| draft.admits(*word)) {
            let (a, b) = draft.costs::<A, B>(word);
            if a <= draft.limit_a && b <= draft.limit_b {
                sweep.note(a, b);
            }
        }
        sweep.widen();
        Ok(sweep)
    }

    fn note(&mut self, a: u8, b: u8) {
        if let Some(least) = self.least_b.get_mut(usize::from(a)) {
            *least = lesser(*least, Some(b));
        }
    }

    // From the least at each cost A to the least within each bound.
    fn widen(&mut self) {
        let mut so_far = None;
        for least in self.least_b.iter_mut() {
            so_far = lesser(so_far, *least);
            *least = so_far;
        }
    }

    // The least cost B of the plans within a cost A.
    fn least(&self, a: u8) -> Option<u8> {
        self.least_b.get(usize::from(a)).copied().flatten()
    }

    // The points that no plan beats, in the order of a rising cost A: where the least cost B falls.
    pub fn front(&self, heap: Global) -> Result<Vec<(u8, u8)>, AllocError> {
        let within = |a| self.least(a).map(|b| (a, b));
        let mut front: Vec<(u8, u8)> = (0..255u8).filter_map(within).collect(heap)?;
        front.dedup_by_key(|point| point.1);
        Ok(front)
    }

    // Whether there is a plan within both bounds.
    pub fn has_plan(&self, a: u8, b: u8) -> bool {
        self.least(a).is_some_and(|least| least <= b)
    }
}

fn lesser(one: Option<u8>, other: Option<u8>) -> Option<u8> {
    one.into_iter().chain(other).min()
}

// 2 to the n-th; 0 where that is more than 64 bits.
pub fn power_of_two(n: u8) -> u64 {
    1u64.checked_shl(u32::from(n)).unwrap_or(0)
}

// The word without the bits of its lowest n choices.
fn halved(word: u64, n: u8) -> u64 {
    (0..n).fold(word, |rest, _| rest / 2)
}

// Whether a mark is true of a setting: the word halved down to the mark's choice is odd or not.
fn is_so(word: u64, mark: i8) -> bool {
    let rest = halved(word, mark.unsigned_abs().saturating_sub(1));
    (rest % 2 == 1) == (mark > 0)
}

pub fn meets(word: u64, rule: &[i8]) -> bool {
    rule.iter().any(|mark| is_so(word, *mark))
}

// The cost of a setting, as a place.
pub fn cost<S: Scale>(prices: &[Price], word: u64) -> u8 {
    let sum = prices.iter().filter(|price| is_so(word, price.mark)).fold(
        S::nothing(),
        |sum, price| S::join(sum, S::from_place(price.place)),
    );
    S::place_of(sum)
}

// The word has no bit of a choice above the last.
pub fn is_setting(word: u64, choices: u8) -> bool {
    halved(word, choices) == 0
}
