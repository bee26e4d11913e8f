//! The barriers as they run, in each phase, over a heap that is made by hand.

ghost use Rattle.std.specs.Prelude.{◌≡◌, ◌<◌, true, IfOk, IfSome, IsSome, length};
ghost use Rattle.object_memory.specs.Objects.{object_cell, object_slots};
ghost use Rattle.barriers.specs.Barriers.{is_other_in_heap};
ghost use Rattle.api_tests.specs.TestHeap.{IsSeen, address_of, after_birth, after_ints, fields, test_objects};

use barriers::{birth, same, store_int, store_monitor, store_ref, store_static, store_value};
use cil_model::memory::NoMemory;
use cil_model::phases::Phase;
use object_memory::{Addr, Heap, Kind, Monitor, Value, ValueKind};
use space_block::Block;
use std::alloc::Global;

/// What is seen of the heap and the static fields in a phase, once each barrier was called. References are given by their words, and
/// 0 is null or none.
#[derive(Clone, Copy, PartialEq)]
struct Observation {
    phase: Phase,
    /// The slots of the old copy of the object that is stored to, and those of the new copy.
    old: [u64; 6],
    new: [u64; 6],
    /// Whether the object is marked that is stored to a slot, and the one that is stored to a static field.
    marks: [bool; 2],
    has_marked: bool,
    grey: [u64; 4],
    /// The monitors of both copies of an object that is entered by its old copy, of one that is entered by its new copy, and of a literal.
    monitors: [Monitor; 5],
    statics: [u64; 2],
    /// Whether the copies of an object are the same, two objects, and null and null.
    same: [bool; 3],
    /// The address of an object that is born, its other copy, and their marks.
    born: [u64; 2],
    born_marks: [bool; 2],
}

// The words of addresses: of two objects with two copies, of two with one, of a literal, and where objects are born in both blocks.
const HOST: u64 = 8;

const HOST_COPIED: u64 = 1_048_577;

const GUEST: u64 = 17;

const GUEST_COPIED: u64 = 1_048_586;

const WHITE: u64 = 1;

const PALE: u64 = 5;

const TEXT: u64 = 2_147_483_648;

const BORN: u64 = 21;

const BORN_COPIED: u64 = 1_048_590;

const FREE: Monitor = Monitor::Free;

const ONCE: Monitor = Monitor::Held { owner: 3, count: 1 };

const TWICE: Monitor = Monitor::Held { owner: 4, count: 2 };

const THRICE: Monitor = Monitor::Held { owner: 5, count: 3 };

/// Between cycles: each barrier acts on the copy that it is given.
const ON_ONE_COPY: Observation = Observation {
    phase: Phase::Idle,
    old: [GUEST, 0, WHITE, 0, 9, 0],
    new: [0, GUEST, 0, TEXT, 0, 8],
    marks: [false, false],
    has_marked: false,
    grey: [0, 0, 0, 0],
    monitors: [ONCE, FREE, FREE, TWICE, THRICE],
    statics: [PALE, GUEST],
    same: [false, false, true],
    born: [BORN, 0],
    born_marks: [false, false],
};

/// While objects are copied: each barrier acts on both copies.
const ON_BOTH_COPIES: Observation = Observation {
    phase: Phase::Copy,
    old: [GUEST, GUEST, WHITE, TEXT, 9, 8],
    new: [GUEST_COPIED, GUEST_COPIED, WHITE, TEXT, 9, 8],
    monitors: [ONCE, ONCE, TWICE, TWICE, THRICE],
    same: [true, false, true],
    born: [BORN, BORN_COPIED],
    born_marks: [true, true],
    ..ON_ONE_COPY
};

const EXPECTED: [Observation; 8] = [
    ON_ONE_COPY,
    Observation {
        phase: Phase::Mark,
        marks: [true, true],
        has_marked: true,
        grey: [WHITE, PALE, BORN, 0],
        born_marks: [true, false],
        ..ON_ONE_COPY
    },
    Observation {
        phase: Phase::Allocate,
        born: [BORN, BORN_COPIED],
        born_marks: [true, true],
        ..ON_ONE_COPY
    },
    ON_BOTH_COPIES,
    Observation {
        phase: Phase::PreFlip,
        statics: [PALE, GUEST_COPIED],
        ..ON_BOTH_COPIES
    },
    Observation {
        phase: Phase::HeapFlip,
        statics: [PALE, GUEST_COPIED],
        ..ON_BOTH_COPIES
    },
    Observation {
        phase: Phase::ThreadFlip,
        new: [GUEST, GUEST, WHITE, TEXT, 9, 8],
        same: [false, false, true],
        born: [BORN_COPIED, 0],
        born_marks: [false, false],
        ..ON_BOTH_COPIES
    },
    Observation {
        phase: Phase::Reclaim,
        born: [BORN_COPIED, 0],
        ..ON_ONE_COPY
    },
];

/// Whether each barrier does in each phase what the test case of the phase shows.
pub fn barriers_match_expected(alloc: Global) -> Result<bool, NoMemory> {
    for expected in EXPECTED {
        if !matches_expected(alloc, &expected)? {
            return Ok(false);
        }
    }
    Ok(true)
}

/// Calls each barrier in the phase of a test case, over a heap of its own, and compares what is seen then.
fn matches_expected(alloc: Global, expected: &Observation) -> Result<bool, NoMemory> {
    let mut heap = test_heap(alloc)?;
    let mut statics = [Value::Ref(Addr::null()), Value::Ref(Addr::null())];
    store_slots(&mut heap, expected.phase);
    let born = store_others(&mut heap, expected.phase, &mut statics);
    Ok(observe(&mut heap, expected.phase, &statics, born) == *expected)
}

/// Stores to the slots of both copies of an object.
fn store_slots(heap: &mut Heap, phase: Phase)
    requires { heap.old ≡ test_objects }
    ensures { heap.new ≡ after_ints phase }
{
    let (host, host_copied, guest) = (address(HOST), address(HOST_COPIED), address(GUEST));
    store_ref(heap, phase, host, 0, guest);
    store_ref(heap, phase, host_copied, 1, guest);
    store_value(heap, phase, host, 2, Value::Ref(address(WHITE)));
    store_value(heap, phase, host_copied, 3, Value::Ref(address(TEXT)));
    store_int(heap, phase, host, 4, 9);
    store_int(heap, phase, host_copied, 5, 8);
}

/// Sets monitors and static fields, and returns what is born then.
fn store_others(heap: &mut Heap, phase: Phase, statics: &mut [Value]) -> Option<Addr>
    requires heap { heap.old ≡ after_ints phase }
    requires statics { statics.old ≡ fields }
    ensures { (heap.new, result) ≡ after_birth phase }
{
    store_monitor(heap, phase, address(HOST), ONCE);
    store_monitor(heap, phase, address(GUEST_COPIED), TWICE);
    store_monitor(heap, phase, address(TEXT), THRICE);
    store_static(heap, phase, statics, 0, Value::Ref(address(PALE)));
    store_static(heap, phase, statics, 1, Value::Ref(address(GUEST)));
    birth(heap, phase, Kind::Instance(5), 2)
}

/// A heap of two blocks while a cycle is open: an object of six slots and one of one slot, each with two copies, two objects of one
/// copy that aren't marked, and a literal.
fn test_heap(alloc: Global) -> Result<Heap, NoMemory>
    ensures { IfOk result (λ h. h ≡ test_objects) }
{
    let grey = Vec::with_capacity(alloc, 21)?;
    let new = Block::new(alloc, 64)?;
    let old = Block::new(alloc, 64)?;
    let mut heap = Heap::new(alloc, old, 1)?;
    heap.birth(Kind::Instance(5), 1, Phase::Idle);
    heap.birth(Kind::Instance(5), 0, Phase::Idle);
    heap.open(new, grey);
    heap.birth(Kind::Instance(5), 6, Phase::Allocate);
    heap.birth(Kind::Instance(5), 1, Phase::Allocate);
    Ok(heap)
}

/// The address with this word.
fn address(word: u64) -> Addr
    requires { word < 4_294_967_296 }
    ensures { result ≡ address_of word }
{
    match Value::of_word(ValueKind::Ref, word) {
        Value::Ref(address) => address,
        Value::Int32(_) | Value::Int64(_) | Value::Native(_) => unreachable!(),
    }
}

/// What is seen. The grey list is emptied.
fn observe(heap: &mut Heap, phase: Phase, statics: &[Value; 2], born: Option<Addr>) -> Observation
    requires { IsSeen phase heap.old born }
{
    let (host, host_copied, guest) = (address(HOST), address(HOST_COPIED), address(GUEST));
    let other = other(heap, born);
    Observation {
        phase,
        old: slots(heap, host),
        new: slots(heap, host_copied),
        marks: [
            is_marked(heap, Some(address(WHITE))),
            is_marked(heap, Some(address(PALE))),
        ],
        has_marked: heap.has_marked(),
        monitors: [
            heap.monitor(host),
            heap.monitor(host_copied),
            heap.monitor(guest),
            heap.monitor(address(GUEST_COPIED)),
            heap.monitor(address(TEXT)),
        ],
        statics: [statics[0].word(), statics[1].word()],
        same: [
            same(heap, phase, host, host_copied),
            same(heap, phase, host, guest),
            same(heap, phase, Addr::null(), Addr::null()),
        ],
        born: [word(born), word(other)],
        born_marks: [is_marked(heap, born), is_marked(heap, other)],
        grey: [
            next_grey(heap),
            next_grey(heap),
            next_grey(heap),
            next_grey(heap),
        ],
    }
}

/// The words of the slots of a copy of the object that is stored to.
fn slots(heap: &Heap, copy: Addr) -> [u64; 6]
    requires { length (object_slots heap.now copy) ≡ 6 }
{
    [
        heap.slot(copy, 0),
        heap.slot(copy, 1),
        heap.slot(copy, 2),
        heap.slot(copy, 3),
        heap.slot(copy, 4),
        heap.slot(copy, 5),
    ]
}

fn is_marked(heap: &Heap, copy: Option<Addr>) -> bool
    requires { IfSome copy (λ a. IsSome (object_cell heap.now a)) }
{
    match copy {
        Some(copy) => heap.is_marked(copy),
        None => false,
    }
}

/// The other copy.
fn other(heap: &Heap, copy: Option<Addr>) -> Option<Addr>
    requires there { IfSome copy (λ a. IsSome (object_cell heap.now a)) }
    requires other { IfSome copy (λ a. is_other_in_heap heap.now a ≡ true) }
    ensures { IfSome result (λ a. IsSome (object_cell heap.now a)) }
{
    match copy {
        Some(copy) => heap.other(copy),
        None => None,
    }
}

/// The word of the oldest address on the grey list, which is taken off.
fn next_grey(heap: &mut Heap) -> u64 {
    let front = heap.grey_front();
    heap.take_grey();
    word(front)
}

fn word(address: Option<Addr>) -> u64 {
    Value::Ref(address.unwrap_or(Addr::null())).word()
}
