// Whether the choices of a ranked loop are settled, from the sums of their arms in its first trips.
#![tactic(auto)]

pub mod body;
pub mod lead;
pub mod series;

ghost use Rattle.std.specs.Prelude.{◌≡◌, suc, ◌-◌, ◌<◌, ◌≤◌};
ghost use Rattle.ranking.specs.Settled.{trip_arms_limit, arm_in, most_series, least_series, first_leads, next_leads, leads_from, both_attained, settled_choice};

use crate::lead::{Lead, first_lead, next_lead, turned};
use crate::series::{Series, series_of};
use records::MAX_RECORDS;
use state::bounds::Bounds;
use std::array::from_fn;

// Each arm has a record of its own: its choice's, or the next arm's.
const MAX_TRIP_ARMS: usize = MAX_RECORDS;

// The arms that are kept of a loop's first trips, trip after trip: how many trips, and how many arms in each. That a trip has no more arms than a sheet has
// records stays in each `requires`, and is no invariant, since `settled` and `settled_choice` promise an answer for any numbers.
#[derive(Clone, Copy)]
pub struct KeptArms<'a> {
    pub arms: &'a [Bounds],
    pub trips: u64,
    pub per_trip: usize,
}

// The comparison of the arms' most and of their least.
#[derive(Clone, Copy)]
pub struct Leads {
    pub most: Lead,
    pub least: Lead,
}

fn both_attained(leads: Leads) -> bool
    ensures { result ≡ both_attained leads }
{
    leads.most.attained && leads.least.attained
}

impl KeptArms<'_> {
    // One of the arms; past the last one a blank one.
    #[tactic(auto, unfolding(crate::specs::Settled::arm_in))]
    fn at(self, trip: usize, arm: usize) -> Bounds
        requires { (self.per_trip ≤ trip_arms_limit) × ((arm < self.per_trip) × (trip < 4)) }
        ensures { result ≡ arm_in self.entry.arms.now self.entry.per_trip trip arm }
    {
        let number = trip * self.per_trip + arm;
        self.arms.get(number).copied().unwrap_or(Bounds::exactly(0))
    }

    // The series of an arm's most. Stays beside that of the least, since the two differ in the field and in `turned`: one method over a closure would be longer than both.
    #[tactic(auto, unfolding(crate::specs::Settled::most_series))]
    fn most_series(self, arm: usize) -> Series
        requires { (self.per_trip ≤ trip_arms_limit) × (arm < self.per_trip) }
        ensures { result ≡ most_series self.entry.arms.now self.entry.trips self.entry.per_trip arm }
    {
        series_of(self.trips, from_fn(|trip| self.at(trip, arm).most))
    }

    // The series of its least, turned, so that the smallest coefficient is the largest word.
    #[tactic(auto, unfolding(crate::specs::Settled::least_series))]
    fn least_series(self, arm: usize) -> Series
        requires { (self.per_trip ≤ trip_arms_limit) × (arm < self.per_trip) }
        ensures { result ≡ least_series self.entry.arms.now self.entry.trips self.entry.per_trip arm }
    {
        turned(series_of(self.trips, from_fn(|trip| self.at(trip, arm).least)))
    }

    // After the first arm.
    #[tactic(auto, unfolding(crate::specs::Settled::first_leads))]
    fn first_leads(self, arm: usize) -> Leads
        requires { (self.per_trip ≤ trip_arms_limit) × (arm < self.per_trip) }
        ensures { result ≡ first_leads self.entry.arms.now self.entry.trips self.entry.per_trip arm }
    {
        Leads {
            most: first_lead(self.most_series(arm)),
            least: first_lead(self.least_series(arm)),
        }
    }

    // With one arm more.
    #[tactic(auto, unfolding(crate::specs::Settled::next_leads))]
    fn next_leads(self, leads: Leads, arm: usize) -> Leads
        requires { (self.per_trip ≤ trip_arms_limit) × (arm < self.per_trip) }
        ensures { result ≡ next_leads self.entry.arms.now self.entry.trips self.entry.per_trip leads arm }
    {
        Leads {
            most: next_lead(leads.most, self.most_series(arm)),
            least: next_lead(leads.least, self.least_series(arm)),
        }
    }

    // Goes over the arms from `first` to before `end`.
    fn leads_over(self, first: usize, end: usize) -> Leads
        requires { (self.per_trip ≤ trip_arms_limit) × ((first < end) × (end ≤ self.per_trip)) }
        ensures { result ≡ leads_from self.entry.arms.now self.entry.trips self.entry.per_trip (end - suc first) (suc first) (first_leads self.entry.arms.now self.entry.trips self.entry.per_trip first) }
    {
        let mut leads = self.first_leads(first);
        for arm in first + 1..end {
            leads = self.next_leads(leads, arm);
        }
        leads
    }
}

// Whether a choice is settled, of whose `own` arms arm `first` is the first one. Where no choice is meant by that, it is not. Stays open to any numbers,
// in place of a choice's arms as a type that holds the tests, since docs/PROOFS.md promises the answer for any.
pub fn settled_choice(kept: KeptArms, first: usize, own: usize) -> bool
    ensures { result ≡ settled_choice kept.entry.arms.now kept.entry.trips kept.entry.per_trip first own }
{
    if own == 0
        || MAX_TRIP_ARMS < kept.per_trip
        || kept.per_trip < own
        || kept.per_trip - own < first
    {
        return false;
    }
    both_attained(kept.leads_over(first, first + own))
}
