// A closed loop's sum from its first trips, by Newton's forward differences, modulo 2^64.
#![tactic(auto)]

ghost use Rattle.std.specs.Prelude.{◌≡◌, ◌^◌, min, if◌then◌else◌, nat_le};
ghost use Rattle.whole.specs.Integer.{floor_remainder};
ghost use Rattle.whole.specs.Newton.{choose};
ghost use Rattle.meaning.specs.Limits.{ceiling_limit};
ghost use Rattle.newton.specs.Weights.{weights_of, differences_of, weighted_sum};

use records::loops::Loop;

// C(n, 1) to C(n, 4), the weights of the differences of order 0 to 3; those past the known values are 0.
#[derive(Clone, Copy, PartialEq, Eq)]
pub struct Weights {
    pub one: u64,
    pub two: u64,
    pub three: u64,
    pub four: u64,
}

// C(n, 2); an n above the largest ceiling counts as that.
fn pairs(n: u64) -> u64
    ensures { result ≡ choose (min n ceiling_limit) 2 }
{
    let trips = n.min(Loop::MAX_CEILING);
    trips * trips.saturating_sub(1) / 2
}

// The weight of this order, or 0 where fewer values are known.
fn if_known(order: u64, known: u64, weight: u64) -> u64
    ensures { result ≡ (if nat_le order known then weight else 0) }
{
    if order <= known { weight } else { 0 }
}

// The weights for the sum of n values of which the first `known` are known; an n above the largest ceiling counts as that,
// since a sheet with a loop of more trips is refused.
// A loop without loops inside has one known value and is left most often: the other weights are not worked out for it.
pub fn weights_of(n: u64, known: u64) -> Weights
    ensures { result ≡ weights_of (min n ceiling_limit) known }
{
    let one = n.min(Loop::MAX_CEILING);
    if known < 2 {
        return Weights {
            one: if_known(1, known, one),
            two: 0,
            three: 0,
            four: 0,
        };
    }
    let two = pairs(n);
    let three = two * one.saturating_sub(2) / 3;
    let four = three * one.saturating_sub(3) / 4;
    Weights {
        one,
        two,
        three: if_known(3, known, three),
        four: if_known(4, known, four),
    }
}

// The first of four values, and the first of their differences of orders 1 to 3, modulo 2^64.
pub fn differences(values: [u64; 4]) -> [u64; 4]
    ensures { result ≡ differences_of values }
{
    let [first, second, third, fourth] = values;
    let first_difference = second.wrapping_sub(first);
    let next_first = third.wrapping_sub(second);
    let last_first = fourth.wrapping_sub(third);
    let second_difference = next_first.wrapping_sub(first_difference);
    let next_second = last_first.wrapping_sub(next_first);
    let third_difference = next_second.wrapping_sub(second_difference);
    [first, first_difference, second_difference, third_difference]
}

// The first differences of four values, each times its weight (003, equation 4), modulo 2^64.
pub fn weighted_sum(w: Weights, values: [u64; 4]) -> u64
    ensures { result ≡ floor_remainder (weighted_sum w values) (2 ^ 64) }
{
    let [first, first_difference, second_difference, third_difference] = differences(values);
    let by_one = first.wrapping_mul(w.one);
    let by_two = first_difference.wrapping_mul(w.two);
    let by_three = second_difference.wrapping_mul(w.three);
    let by_four = third_difference.wrapping_mul(w.four);
    let from_three = by_three.wrapping_add(by_four);
    let from_two = by_two.wrapping_add(from_three);
    by_one.wrapping_add(from_two)
}
