//! Messages counted by the minute of their stamp.
ghost use Rattle.std.specs.Prelude.{◌≡◌, ℕ, ℤ, ◌+◌, ◌<◌, ◌^◌, ◌++◌, List, [], ◌∷◌, length, count_by, cond, is_none, slice_get, All, IfOk, OnOk, Option, Some};
ghost use Rattle.std.specs.BTreeMap.{IsOrdered};
ghost use Rattle.std.specs.Ordering.{int_cmp, is_eq};
ghost use Rattle.search_meaning.specs.Groups.{AreGroups, by_moment, stamped};
ghost use Rattle.group_count.specs.Tables.{AreMinutes, IsTally, minute_at, minute_entries, minutes_at, start_of};

use crate::tally::add_to;
use plain_list::Text;
use search_meaning::{Group, GroupList};
use std::alloc::{AllocError, Global};
use std::collections::BTreeMap;
use std::marker::Model;

/// How many messages of each minute were counted.
///
/// Messages of one minute stand together in a log. So the minute at hand has a count of its own,
/// and the map is asked only where another minute comes.
#[derive(Drop)]
pub struct MinuteTable {
    /// Whether moments count microseconds.
    micro: bool,
    /// The first moment of the minute at hand.
    first: i64,
    /// How many messages in a row had it.
    run: u64,
    /// The minutes before.
    minutes: BTreeMap<i64, u64>,
    /// How many messages had no stamp.
    without: u64,
}

impl Model for MinuteTable {
    ghost use Rattle.std.specs.Int.{w64};
    ghost use Rattle.std.specs.Int.RustNames.{FitsSigned};
    ghost use Rattle.group_count.specs.Tables.{MinuteState};

    ghost Value = { MinuteState };

    ghost view = { λ t. record {
      micro = t.micro;
      minutes = t.minutes.entries;
      first = t.first;
      run = t.run;
      without = t.without;
    } };

    ghost invariant = { λ t. FitsSigned w64 t.first };
}

/// The first moment of a moment's minute, also before 1970.
fn start_of(micro: bool, moment: i64) -> i64
    ensures { result ≡ start_of micro moment }
{
    let rest = if micro {
        moment.rem_euclid(60_000_000)
    } else {
        moment.rem_euclid(60_000)
    };
    moment.saturating_sub(rest)
}

/// The pattern at a place.
#[inline]
fn pattern_at(patterns: &[u8], place: usize) -> u8
    requires { place < length patterns.now }
    ensures { slice_get patterns.now place ≡ Some result }
{
    patterns[place]
}

/// The moment at a place.
#[inline]
fn moment_at(moments: &[i64], place: usize) -> i64
    requires { place < length moments.now }
    ensures { slice_get moments.now place ≡ Some result }
{
    moments[place]
}

/// Adds a run of messages with one minute to the minutes before.
fn put_run(minutes: &mut BTreeMap<i64, u64>, first: i64, run: u64) -> Result<(), AllocError>
    ensures { OnOk result ((often : ℤ → ℕ)
        → ((q : ℤ) → often q + cond (is_eq (int_cmp first q)) run 0 < 2 ^ 64)
        → IsTally int_cmp minutes.old often
        → IsTally int_cmp minutes.new (λ q. often q + cond (is_eq (int_cmp first q)) run 0)) }
{
    if run > 0 {
        add_to(minutes, first, run)?;
    }
    Ok(())
}

/// Adds minutes with how often each came.
fn add_all(minutes: &mut BTreeMap<i64, u64>, more: &BTreeMap<i64, u64>) -> Result<(), AllocError>
    ensures { OnOk result ((often others : ℤ → ℕ) → ((q : ℤ) → often q + others q < 2 ^ 64)
        → IsTally int_cmp minutes.old often → IsTally int_cmp more.now others
        → IsTally int_cmp minutes.new (λ q. often q + others q)) }
{
    for (minute, count) in more {
        put_run(minutes, *minute, *count)?;
    }
    Ok(())
}

/// The groups of minutes.
fn groups_of(alloc: Global, minutes: &BTreeMap<i64, u64>) -> Result<GroupList, AllocError>
    ensures groups { IfOk result
        (λ groups. by_moment groups ≡ minute_entries minutes.now.entries) }
    ensures keys { IfOk result (λ groups. All (λ g. g.key ≡ []) groups) }
    ensures ordered { IsOrdered int_cmp minutes.now }
{
    let mut groups = Vec::with_capacity(alloc, minutes.len())?;
    for (minute, count) in minutes {
        groups.push(Group {
            key: Text::new(Vec::new(alloc)),
            moment: *minute,
            count: *count,
        })?;
    }
    Ok(GroupList::new(groups))
}

impl MinuteTable {
    /// A table in which nothing was counted. Takes no memory.
    pub fn new(alloc: Global, micro: bool) -> MinuteTable
        ensures micro { result.micro ≡ micro }
        ensures nothing { AreMinutes result [] }
    {
        MinuteTable {
            micro,
            first: 0,
            run: 0,
            minutes: BTreeMap::new(alloc),
            without: 0,
        }
    }

    /// Makes a minute the one at hand.
    fn turn_to(&mut self, minute: i64) -> Result<(), AllocError>
        ensures micro { self.new.micro ≡ self.old.micro }
        ensures first { OnOk result (self.new.first ≡ minute) }
        ensures same { OnOk result ((keys : List (Option ℤ)) → AreMinutes self.old keys
            → AreMinutes self.new keys) }
    {
        if minute != self.first {
            put_run(&mut self.minutes, self.first, self.run)?;
            self.first = minute;
            self.run = 0;
        }
        Ok(())
    }

    /// Counts a message with the stamp of this pattern and moment, or with none where the pattern
    /// is 0.
    #[inline]
    pub fn count(&mut self, pattern: u8, moment: i64) -> Result<(), AllocError>
        ensures micro { self.new.micro ≡ self.old.micro }
        ensures counted { OnOk result ((keys : List (Option ℤ)) → AreMinutes self.old keys
            → AreMinutes self.new (keys ++ minute_at self.old.micro pattern moment ∷ [])) }
    {
        if pattern == 0 {
            self.without = self.without.saturating_add(1);
            return Ok(());
        }
        self.turn_to(start_of(self.micro, moment))?;
        self.run = self.run.saturating_add(1);
        Ok(())
    }

    /// Counts a message with each of these patterns and the moment at its place.
    pub(crate) fn count_stamps(
        &mut self,
        patterns: &[u8],
        moments: &[i64],
    ) -> Result<(), AllocError>
        requires { length patterns.now ≡ length moments.now }
        ensures micro { self.new.micro ≡ self.old.micro }
        ensures counted { OnOk result ((keys : List (Option ℤ)) → AreMinutes self.old keys
            → AreMinutes self.new
            (keys ++ minutes_at self.old.micro patterns.now moments.now)) }
    {
        for place in 0..patterns.len() {
            let pattern = pattern_at(patterns, place);
            let moment = moment_at(moments, place);
            self.count(pattern, moment)?;
        }
        Ok(())
    }

    /// Whether moments count microseconds.
    pub(crate) fn is_micro(&self) -> bool
        ensures { result ≡ self.now.micro }
    {
        self.micro
    }

    /// Counts what was counted in another table.
    pub(crate) fn take_in(&mut self, other: &MinuteTable) -> Result<(), AllocError>
        ensures micro { self.new.micro ≡ self.old.micro }
        ensures counted { OnOk result ((before keys : List (Option ℤ))
            → AreMinutes self.old before → AreMinutes other.now keys
            → AreMinutes self.new (before ++ keys)) }
    {
        put_run(&mut self.minutes, self.first, self.run)?;
        self.run = 0;
        add_all(&mut self.minutes, &other.minutes)?;
        put_run(&mut self.minutes, other.first, other.run)?;
        self.without = self.without.saturating_add(other.without);
        Ok(())
    }

    /// How many messages without stamp were counted.
    pub fn without(&self) -> u64
        ensures { (keys : List (Option ℤ)) → AreMinutes self.now keys → length keys < 2 ^ 64
            → result ≡ count_by is_none keys }
    {
        self.without
    }

    /// The groups of what was counted, by minutes.
    pub fn groups(self, alloc: Global) -> Result<GroupList, AllocError>
        ensures groups { IfOk result (λ groups. (keys : List (Option ℤ)) → AreMinutes self keys
            → length keys < 2 ^ 64 → AreGroups int_cmp (stamped keys) (by_moment groups)) }
        ensures keys { IfOk result (λ groups. All (λ g. g.key ≡ []) groups) }
    {
        let MinuteTable {
            micro: _,
            first,
            run,
            minutes,
            without: _,
        } = self;
        let mut minutes = minutes;
        put_run(&mut minutes, first, run)?;
        groups_of(alloc, &minutes)
    }
}
