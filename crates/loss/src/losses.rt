// The three losses of the bench.
ghost use Rattle.loss.specs.Costs.{square_cost, square_step, absolute_cost, absolute_step, band_cost, band_step, apart, outside_band};
ghost use Rattle.std.specs.Prelude.{◌≡◌, suc, ◌*◌, ◌^◌, ◌≤◌, ℤ, pos, negsuc, ◌+ℤ◌, ◌*ℤ◌, neg_ℤ, ◌≤ℤ◌, nat_lt};
ghost use Rattle.loss.specs.Weights;
ghost use Rattle.loss.specs.Weights.{next_square, weighed_le};
ghost use Rattle.std.proofs.Common.{arith, rules};
ghost use Rattle.std.proofs.lemmas.Int.{ints};
ghost use Rattle.std.proofs.lemmas.Bool.{cond_both, ltb-true, ltb-false};

use super::Loss;
use super::readings::Reading;
use super::spans::Band;

// A weight times a difference of 18 bits, which 64 bits hold with room to spare.
fn weighed(weight: u16, rise: i64) -> i64
    requires { (neg_ℤ (pos (2 ^ 18)) ≤ℤ rise) × (rise ≤ℤ pos (2 ^ 18)) }
    ensures value { result ≡ pos weight *ℤ rise }
    ensures low { neg_ℤ (pos (2 ^ 36)) ≤ℤ result }
    ensures high { result ≤ℤ pos (2 ^ 36) }
{
    i64::from(weight) * rise
}

// The weight times the square of the distance.
#[derive(Clone, Copy, PartialEq, Eq, Debug)]
pub struct Squares;

impl Loss for Squares {
    type Point = Reading;

    const FIELDS: usize = 4;

    ghost cost = { λ _. square_cost };

    ghost slope = { λ _. square_step };

    ghost difference = { λ s p l _. Weights.weighed p.weight _ _ _ (next_square l p.level) };

    ghost convex = { λ s p l _. weighed_le p.weight _ _ (omega (arith, ints)) };

    fn step(&self, point: &Reading, level: u16) -> i64 {
        let rise = 2 * i64::from(level) + 1 - 2 * i64::from(point.level());
        weighed(point.weight(), rise)
    }
}

// The weight times the distance.
#[derive(Clone, Copy, PartialEq, Eq, Debug)]
pub struct Absolute;

impl Loss for Absolute {
    type Point = Reading;

    const FIELDS: usize = 4;

    ghost cost = { λ _. absolute_cost };

    ghost slope = { λ _. absolute_step };

    ghost difference = { λ s p l _.
        let here = apart l p.level in
        let next = apart (suc l) p.level in
        let moves = Weights.weighed p.weight here next in
        cond_both (nat_lt l p.level) _ _ (λ z. pos (p.weight * next) ≡ pos (p.weight * here) +ℤ z)
        (λ e. omega (arith, ints, moves (negsuc 0) (omega (arith, ints, ltb-true l p.level e))))
        (λ e. omega (arith, ints, moves (pos 1) (omega (arith, ints, ltb-false l p.level e)))) };

    ghost convex = { Prim.search rules };

    fn step(&self, point: &Reading, level: u16) -> i64 {
        let pull = i64::from(point.weight());
        if level < point.level() { -pull } else { pull }
    }
}

// The weight times the distance to the nearest level of the band.
#[derive(Clone, Copy, PartialEq, Eq, Debug)]
pub struct Bands;

impl Loss for Bands {
    type Point = Band;

    const FIELDS: usize = 5;

    ghost cost = { λ _. band_cost };

    ghost slope = { λ _. band_step };

    ghost difference = { λ s p l _.
        let here = outside_band p l in
        let next = outside_band p (suc l) in
        let moves = Weights.weighed p.weight here next in
        let P : ℤ → Type 0 = λ z. pos (p.weight * next) ≡ pos (p.weight * here) +ℤ z in
        cond_both (nat_lt l p.low) _ _ P
        (λ e. omega (arith, ints, moves (negsuc 0) (omega (arith, ints, ltb-true l p.low e))))
        (λ e.
        let above : p.low ≤ l = ltb-false l p.low e in
        cond_both (nat_lt l p.high) _ _ P
        (λ d. omega (arith, ints, moves (pos 0) (omega (arith, ints, ltb-true l p.high d))))
        (λ d. omega (arith, ints, moves (pos 1) (omega (arith, ints, ltb-false l p.high d))))) };

    ghost convex = { Prim.search rules };

    fn step(&self, point: &Band, level: u16) -> i64 {
        let weight = i64::from(point.weight());
        match level {
            l if l < point.low() => -weight,
            l if l < point.high() => 0,
            _ => weight,
        }
    }
}
