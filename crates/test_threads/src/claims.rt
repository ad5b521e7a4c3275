//! Eight threads claim numbers of one application.

ghost use Rattle.std.specs.Prelude.{◌≡◌, ◌+◌, ◌*◌, ◌<◌, ◌≤◌, ℕ, [], All, IfOk, length, nat_lt, vec_len};
ghost use Rattle.dl_cells.specs.Views.{bit, times};
ghost use Rattle.dl_cells.specs.Claims.{given_of, refused_of};

use dl_bytes::OutOfMemory;
use dl_cells::{ClaimKeeper, Claimer, make_claims};
use std::alloc::Global;
use std::snapshot::Snapshot;
use std::thread;
use std::thread::{Promise, PromisedHandle, Threads};

// How many threads claim, and how often each.
const CLAIMERS: u64 = 8;

const EACH: u64 = 16;

/// What a thread gives back.
#[derive(Drop)]
struct Claimed {
    claimer: Claimer,
    given: Numbers,
}

/// Numbers that were given.
#[derive(Clone, Copy, Drop)]
pub struct Numbers {
    /// How many.
    pub count: u64,
    /// A bit for each number.
    pub bits: u64,
}

// A thread gives its claimer back. It was given so many numbers, and no less than sixteen where it found some left each time.
#[derive(Drop)]
struct Claims(Snapshot<ClaimKeeper>);

impl Promise<Claimed> for Claims {
    ghost use Rattle.dl_cells.specs.Claims.{given_of, refused_of};

    ghost kept_by = { λ p c. (c.claimer.table ≡ p.0.value.table) × (c.claimer.splits_left ≡ 0) × (c.given.count ≡ length (given_of 0 c.claimer.given)) × (c.given.count ≤ 16) × (16 ≤ c.given.count + 16 * refused_of 0 c.claimer.refused) };
}

#[tactic(auto, using(dl_cells::proofs::ClaimSums::given_more, dl_cells::proofs::ClaimSums::once_some))]
fn claim_each(mut claimer: Claimer) -> Claimed
    requires some { 0 < claimer.apps }
    requires fresh { claimer.given ≡ [] }
    ensures table { result.claimer.table ≡ claimer.table }
    ensures splits_left { result.claimer.splits_left ≡ claimer.splits_left }
    ensures count { result.given.count ≡ length (given_of 0 result.claimer.given) }
    ensures few { result.given.count ≤ 16 }
    ensures all { 16 ≤ result.given.count + 16 * refused_of 0 result.claimer.refused }
{
    let mut given = Numbers { count: 0, bits: 0 };
    for _n in 0..EACH {
        if let Some(number) = claimer.claim(0) {
            given.count += 1;
            given.bits |= 1 << number;
        }
    }
    Claimed { claimer, given }
}

fn start(
    rt: &impl Threads,
    alloc: Global,
    keeper: &ClaimKeeper,
    first: &mut Claimer,
) -> Result<Vec<PromisedHandle<Claimed, Claims>>, OutOfMemory>
    requires { (0 < first.old.apps) × (first.old.given ≡ []) × (first.old.refused ≡ []) × (first.old.splits_left ≡ 64) × (first.old.table ≡ keeper.now.table) }
    ensures first { IfOk result (λ _. first.new ≡ record first.old { splits_left = 56 }) }
    ensures count { IfOk result (λ children. vec_len children ≡ 8) }
    ensures same { IfOk result (λ children. All (λ c. c.promise.0.value.table ≡ keeper.now.table) children.items) }
{
    let mut children = Vec::new(alloc);
    for _n in 0..CLAIMERS {
        let claimer = first.split();
        let claims = Claims(Snapshot::of(keeper));
        children.push(thread::spawn_with(rt, claims, move || claim_each(claimer))?)?;
    }
    Ok(children)
}

fn gather(
    rt: &impl Threads,
    keeper: &mut ClaimKeeper,
    children: Vec<PromisedHandle<Claimed, Claims>>,
) -> Numbers
    requires { (keeper.old.given ≡ []) × (keeper.old.shares ≡ 0) × (vec_len children ≡ 8) × All (λ c. c.promise.0.value.table ≡ keeper.old.table) children.items }
    ensures rest { keeper.new ≡ record keeper.old { given = keeper.new.given; refused = keeper.new.refused; shares = 8 } }
    ensures count { result.count ≡ length (given_of 0 keeper.new.given) }
    ensures all { 128 ≤ result.count + 16 * refused_of 0 keeper.new.refused }
{
    let mut given = Numbers { count: 0, bits: 0 };
    for child in children {
        let claimed = child.join(rt);
        keeper.join(claimed.claimer);
        given.count += claimed.given.count;
        given.bits |= claimed.given.bits;
    }
    given
}

/// What eight threads were given of 128 claims: each number below 64 once.
pub fn claim_together(
    rt: &impl Threads,
    alloc: Global,
) -> Result<(ClaimKeeper, Numbers), OutOfMemory>
    ensures count { IfOk result (λ made. made.1.count ≡ 64) }
    ensures once { IfOk result (λ made. (n : ℕ) → times n (given_of 0 made.0.given) ≡ bit (nat_lt n 64)) }
{
    let (mut keeper, mut first) = make_claims(alloc, 1)?;
    let children = start(rt, alloc, &keeper, &mut first)?;
    let given = gather(rt, &mut keeper, children);
    keeper.join(first);
    keeper.given(0);
    Ok((keeper, given))
}
