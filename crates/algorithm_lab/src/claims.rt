//! Never claims, in a state of a monitor.

ghost use Rattle.std.specs.Prelude.{◌≡◌, slice_set, Some, None};
ghost use Rattle.std.specs.Option.{option_copied};
ghost use Rattle.algorithm_lab.specs.Claims.{any_below, claim_broken, fact_value, first_broken, holds_beside, holds_of, is_broken, is_in_phase, is_next_at, names_of_two, or_line, phase_fact, place_fact, stands_at, stands_in, truth_value, with_facts};

use algorithms::known_values::known_name;
use algorithms::{
    AlgorithmPlace, AlgorithmProcess, AlgorithmWorld, ClaimedPhase, NAMES, NeverClaim, StateFact,
};
use rmecore::Phase;

/// Whether a process in this phase is in the one that a claim names.
fn is_in_phase(named: ClaimedPhase, phase: Phase) -> bool
    ensures { result ≡ is_in_phase named phase }
{
    match (named, phase) {
        (ClaimedPhase::Out, Phase::Out)
        | (ClaimedPhase::Doorway, Phase::Door)
        | (ClaimedPhase::Waiting, Phase::Ready)
        | (ClaimedPhase::Inside, Phase::Inside)
        | (ClaimedPhase::Dead, Phase::DeadIn) => true,
        _ => false,
    }
}

/// 1 for what is so, else 0.
fn truth_value(is_so: bool) -> Option<u64>
    ensures { result ≡ truth_value is_so }
{
    if is_so { Some(1) } else { Some(0) }
}

/// Whether a process is there, and is in the phase that a claim names.
fn stands_in(named: ClaimedPhase, phase: Option<Phase>) -> bool
    ensures { result ≡ stands_in named phase }
{
    match phase {
        None => false,
        Some(phase) => is_in_phase(named, phase),
    }
}

/// Whether a process is in the phase that a claim names. `None` where its name has no value.
fn phase_fact(phases: &[Phase], named: ClaimedPhase, process: Option<u64>) -> Option<u64>
    ensures { result ≡ phase_fact phases.now named process }
{
    let p = process?;
    truth_value(stands_in(named, phases.get(p as usize).copied()))
}

/// Whether the next access of a process is the line at this place.
fn is_next_at(place: usize, of_process: AlgorithmPlace) -> bool
    ensures { result ≡ is_next_at place of_process }
{
    match of_process {
        AlgorithmPlace::Rest | AlgorithmPlace::Dead => false,
        AlgorithmPlace::At(at) => at == place,
    }
}

/// Whether a process is there, and its next access is the line at this place.
fn stands_at(place: Option<usize>, process: Option<&AlgorithmProcess>) -> bool
    ensures { result ≡ stands_at place (option_copied process.entry) }
{
    match (place, process) {
        (Some(place), Some(process)) => is_next_at(place, process.place),
        _ => false,
    }
}

/// Whether the next access of a process is the one below a label. `None` where its name has no value.
fn place_fact(world: &AlgorithmWorld, label: usize, process: Option<u64>) -> Option<u64>
    ensures { result ≡ place_fact world.now label process }
{
    let p = process?;
    let place = world.algorithm().label_places.get(label).copied();
    truth_value(stands_at(place, world.processes().get(p as usize)))
}

/// The value of a fact, by the names before it.
fn fact_value(
    world: &AlgorithmWorld,
    phases: &[Phase],
    names: &[Option<u64>; NAMES],
    fact: &StateFact,
) -> Option<u64>
    ensures { result ≡ fact_value world.now phases.now names.now fact.now }
{
    match fact {
        StateFact::Word(word) => world.known_word(word, names),
        StateFact::Phase { name, phase } => phase_fact(phases, *phase, known_name(names, *name)),
        StateFact::Place { name, label } => place_fact(world, *label, known_name(names, *name)),
    }
}

/// Sets a name. One that is not there has no value.
fn set_known(names: &mut [Option<u64>; NAMES], at: u64, value: Option<u64>)
    ensures { names.new ≡ slice_set names.old at value }
{
    if at < NAMES as u64 {
        names[at as usize] = value;
    }
}

/// Gives the names from this one on the values of the facts.
fn put_facts(
    world: &AlgorithmWorld,
    phases: &[Phase],
    at: u64,
    names: &mut [Option<u64>; NAMES],
    facts: &[StateFact],
)
    ensures { names.new ≡ with_facts world.now phases.now at names.old facts.now }
{
    let mut next = at;
    for fact in facts {
        let value = fact_value(world, phases, names, fact);
        set_known(names, next, value);
        next = next.saturating_add(1);
    }
}

/// The names of which the first two are these processes.
fn names_of_two(first: Option<u64>, second: Option<u64>) -> [Option<u64>; NAMES]
    ensures { result ≡ names_of_two first second }
{
    let mut names = [None; NAMES];
    names[0] = first;
    names[1] = second;
    names
}

/// Whether the condition of a claim holds of these processes.
fn holds_of(
    world: &AlgorithmWorld,
    phases: &[Phase],
    claim: &NeverClaim,
    first: Option<u64>,
    second: Option<u64>,
) -> bool
    ensures { result ≡ holds_of world.now phases.now claim.now first second }
{
    let mut names = names_of_two(first, second);
    let at = claim.processes as u64;
    put_facts(world, phases, at, &mut names, claim.facts.as_slice());
    claim.condition.is_satisfied(world.sizes(), &names)
}

/// Whether the condition of a claim holds of one process.
#[tactic(auto, using(crate::proofs::BrokenClaims::below_more))]
fn holds_of_one(world: &AlgorithmWorld, phases: &[Phase], claim: &NeverClaim) -> bool
    ensures { result ≡ any_below (λ p. holds_of world.now phases.now claim.now (Some p) None) world.now.procs }
{
    let mut holds = false;
    for p in 0..world.procs() {
        let here = holds_of(world, phases, claim, Some(p), None);
        holds = holds || here;
    }
    holds
}

/// Whether the condition of a claim holds of p and q, which differ.
fn holds_beside(
    world: &AlgorithmWorld,
    phases: &[Phase],
    claim: &NeverClaim,
    p: u64,
    q: u64,
) -> bool
    ensures { result ≡ holds_beside world.now phases.now claim.now p q }
{
    q != p && holds_of(world, phases, claim, Some(p), Some(q))
}

/// Whether the condition of a claim holds of p and another process.
#[tactic(auto, using(crate::proofs::BrokenClaims::below_more))]
fn holds_with(world: &AlgorithmWorld, phases: &[Phase], claim: &NeverClaim, p: u64) -> bool
    ensures { result ≡ any_below (holds_beside world.now phases.now claim.now p) world.now.procs }
{
    let mut holds = false;
    for q in 0..world.procs() {
        let here = holds_beside(world, phases, claim, p, q);
        holds = holds || here;
    }
    holds
}

/// Whether the condition of a claim holds of two processes.
#[tactic(auto, using(crate::proofs::BrokenClaims::below_more))]
fn holds_of_two(world: &AlgorithmWorld, phases: &[Phase], claim: &NeverClaim) -> bool
    ensures { result ≡ any_below (λ p. any_below (holds_beside world.now phases.now claim.now p) world.now.procs) world.now.procs }
{
    let mut holds = false;
    for p in 0..world.procs() {
        let here = holds_with(world, phases, claim, p);
        holds = holds || here;
    }
    holds
}

/// Whether the condition of a claim holds of some processes, which differ.
fn is_broken(world: &AlgorithmWorld, phases: &[Phase], claim: &NeverClaim) -> bool
    ensures { result ≡ is_broken world.now phases.now claim.now }
{
    if claim.processes == 0 {
        holds_of(world, phases, claim, None, None)
    } else if claim.processes == 1 {
        holds_of_one(world, phases, claim)
    } else {
        holds_of_two(world, phases, claim)
    }
}

/// The line of the first of these claims whose condition holds.
fn first_broken(world: &AlgorithmWorld, phases: &[Phase], claims: &[NeverClaim]) -> Option<u64>
    ensures { result ≡ first_broken world.now phases.now claims.now }
{
    for claim in claims {
        if is_broken(world, phases, claim) {
            return Some(claim.number);
        }
    }
    None
}

/// The line of the first claim of the text whose condition holds in this state.
pub(crate) fn claim_broken(world: &AlgorithmWorld, phases: &[Phase]) -> Option<u64>
    ensures { result ≡ claim_broken world.now phases.now }
{
    first_broken(world, phases, world.algorithm().claims.as_slice())
}

/// The first line, where there is one, else the second.
pub(crate) fn or_line(line: Option<u64>, other: Option<u64>) -> Option<u64>
    ensures { result ≡ or_line line other }
{
    match line {
        None => other,
        Some(line) => Some(line),
    }
}
