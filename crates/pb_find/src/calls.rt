// The most calls that a host hands out on its way through a play, place by place.
ghost use Rattle.std.specs.Prelude.{◌≡◌, ◌+◌, ◌++◌, ◌<◌, ℕ, All, IfOk, OnOk, cond, length};
ghost use Rattle.std.specs.Prelude.{map, max, nat_eq, slice_index, suc, vec_len};
ghost use Rattle.pb_language.specs.Give.{retries_of};
ghost use Rattle.pb_language.specs.Walk.{visits_at};
ghost use Rattle.pb_lattice.specs.Words.{Stands, exit_of};
ghost use Rattle.pb_route.specs.Words.{IsStation, station_task};
ghost use Rattle.pb_route.specs.Places.{calls_at, items_at, length_at, places_calls};
ghost use Rattle.pb_find.specs.Ways.{Visits, way_visits};

use pb_lattice::{Environment, Environments};
use pb_outlook::Outlook;
use pb_route::Station;
use pb_task::Work;
use pb_visit::{Visit, length};
use std::alloc::{AllocError, Global};

/// The most calls that a host hands out on its way through a play, where that is known at its
/// nodes: for each place the greatest number of its items, as often as there may be attempts.
///
/// # Errors
///
/// Want of memory, also where there are more than a `u64` counts.
pub fn calls_in<O: Outlook>(
    alloc: Global,
    stations: &[Station<'_>],
    outlook: &O,
    values: &[Environment],
    space: &Environments,
) -> Result<u64, AllocError>
    requires stations { All IsStation stations.now }
    requires values { All (Stands space.now) values.now }
    requires number { length stations.now < length values.now }
    ensures { IfOk result (λ n. n ≡ places_calls
        (way_visits (O.setting outlook.now) stations.now space.now values.now) 0
        (map station_task stations.now)) }
{
    let lengths = lengths_in(alloc, stations, outlook, values, space)?;
    let mut calls = 0;
    // the first node of each place comes in the order of the places
    let mut next: u64 = 0;
    for station in stations {
        if u64::from(station.place) == next {
            next += 1;
            let here = calls_at(station, lengths[station.place as usize])?;
            calls = sum(calls, here)?;
        }
    }
    Ok(calls)
}

// For each place the greatest length of its loop.
fn lengths_in<O: Outlook>(
    alloc: Global,
    stations: &[Station<'_>],
    outlook: &O,
    values: &[Environment],
    space: &Environments,
) -> Result<Vec<usize>, AllocError>
    requires stations { All IsStation stations.now }
    requires values { All (Stands space.now) values.now }
    requires number { length stations.now < length values.now }
    ensures places { IfOk result (λ ls. All (λ s. s.place < vec_len ls) stations.now) }
    ensures lengths { IfOk result (λ ls. (p : ℕ) → slice_index ls.items p
        ≡ length_at p (way_visits (O.setting outlook.now) stations.now space.now values.now)) }
{
    let mut lengths = vec![in alloc; 0; places_of(stations)]?;
    for (index, station) in stations.iter().enumerate() {
        put_length(
            alloc,
            station,
            outlook,
            values[index + 1],
            space,
            &mut lengths,
        )?;
    }
    Ok(lengths)
}

// Puts the length of the task's loop at its place, where it is greater and a way leads to the task.
fn put_length<O: Outlook>(
    alloc: Global,
    station: &Station<'_>,
    outlook: &O,
    at: Environment,
    space: &Environments,
    lengths: &mut [usize],
) -> Result<(), AllocError>
    requires station { IsStation station.now }
    requires stands { Stands space.now at }
    requires place { station.now.place < length lengths.old }
    ensures number { length lengths.new ≡ length lengths.old }
    ensures lengths { OnOk result ((p : ℕ) (vs : Visits)
        → max (slice_index lengths.new p) (length_at p vs)
        ≡ max (slice_index lengths.old p) (length_at p (visits_at (O.setting outlook.now)
        (station_task station.now) (exit_of space.now at) ++ vs))) }
{
    if at.is_dead() {
        return Ok(());
    }
    let visit = Visit { station, space, at };
    let here = length(alloc, &visit, outlook)?;
    put_greatest(lengths, station.place as usize, here);
    Ok(())
}

// How many places there are up to the last.
fn places_of(stations: &[Station<'_>]) -> usize
    ensures { All (λ s. s.place < result) stations.now }
{
    let mut places = 0;
    for station in stations {
        places = places.max(station.place as usize + 1);
    }
    places
}

// Puts the length at that place, where it is greater.
fn put_greatest(lengths: &mut [usize], place: usize, here: usize)
    requires { place < length lengths.old }
    ensures number { length lengths.new ≡ length lengths.old }
    ensures lengths { (p : ℕ) → slice_index lengths.new p ≡ cond (nat_eq p place)
        (max here (slice_index lengths.old p)) (slice_index lengths.old p) }
{
    if lengths[place] < here {
        lengths[place] = here;
    }
}

// The most calls of a place whose loop is at most so long.
fn calls_at(station: &Station<'_>, most: usize) -> Result<u64, AllocError>
    ensures { IfOk result (λ n. (vs : Visits) → most ≡ length_at station.now.place vs
        → n ≡ calls_at vs (station_task station.now) (station_task station.now).action) }
{
    let Work::Module(_) = &station.task.work else {
        return Ok(0);
    };
    match attempts_of(station)?.checked_mul(items_of(station, most)) {
        Some(calls) => Ok(calls),
        None => Err(AllocError),
    }
}

// How many items there are at most where the loop is at most so long; one without a loop.
fn items_of(station: &Station<'_>, most: usize) -> u64
    ensures { (vs : Visits) → most ≡ length_at station.now.place vs
        → result ≡ items_at vs station.now.place (station_task station.now).loop }
{
    match &station.task.loop_over {
        Some(_) => most as u64,
        None => 1,
    }
}

// How many attempts there may be.
fn attempts_of(station: &Station<'_>) -> Result<u64, AllocError>
    ensures { IfOk result (λ n. n ≡ suc (retries_of (station_task station.now).attempts)) }
{
    match &station.task.attempts {
        Some(attempts) => sum(attempts.retries, 1),
        None => Ok(1),
    }
}

fn sum(one: u64, other: u64) -> Result<u64, AllocError>
    ensures { IfOk result (λ n. n ≡ one + other) }
{
    match one.checked_add(other) {
        Some(sum) => Ok(sum),
        None => Err(AllocError),
    }
}
