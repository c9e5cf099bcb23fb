// Chains over tables of four functions made by hand: who has one, which of them is shown, and that it is written once.
ghost use Rattle.std.specs.Prelude.{◌≡◌, length, All, IfOk};
ghost use Rattle.chains.specs.Look.{IsCallBelow, CallsBelow};

use chains::{Chains, Mark, MarkList, Span, distances};
use std::alloc::{AllocError, Global};
use std::test::Fail;

const PASSES: Mark = Mark::Passes;

const VIOLATES: Mark = Mark::Violates;

const TO_0: Mark = Mark::StepsTo(0);

const TO_1: Mark = Mark::StepsTo(1);

const TO_2: Mark = Mark::StepsTo(2);

const TO_3: Mark = Mark::StepsTo(3);

// The mark, or that the place passes where it would step out of the four functions.
fn within(mark: Mark) -> Mark
    ensures { IsCallBelow 4 result }
{
    match mark {
        Mark::Passes => Mark::Passes,
        Mark::Violates => Mark::Violates,
        Mark::StepsTo(callee) => {
            if callee < 4 {
                Mark::StepsTo(callee)
            } else {
                Mark::Passes
            }
        }
    }
}

fn row(alloc: Global, marks: [Mark; 3]) -> Result<MarkList, AllocError>
    ensures { IfOk result (λ row. All (IsCallBelow 4) row) }
{
    let [first, second, third] = marks;
    let mut row = MarkList::new(alloc);
    row.push(within(first))?;
    row.push(within(second))?;
    row.push(within(third))?;
    Ok(row)
}

fn rows(alloc: Global, table: [[Mark; 3]; 4]) -> Result<Vec<MarkList>, AllocError>
    ensures four { IfOk result (λ rows. length rows.items ≡ 4) }
    ensures calls { IfOk result (λ rows. CallsBelow 4 rows.items) }
{
    let [first, second, third, fourth] = table;
    let mut rows = Vec::new(alloc);
    rows.push(row(alloc, first)?)?;
    rows.push(row(alloc, second)?)?;
    rows.push(row(alloc, third)?)?;
    rows.push(row(alloc, fourth)?)?;
    Ok(rows)
}

fn is_span(span: Span, from: usize, to: usize) -> bool {
    span.from == from && span.to == to
}

// The steps of the shown chain of a function, each as its function and place, or nothing where it has none.
fn shown(alloc: Global, chains: &mut Chains, function: u32) -> Result<String, AllocError> {
    let mut text = String::new(alloc);
    if (function as usize) < chains.rows().len() && chains.has_chain(function) {
        let span = chains.chain_of(function)?;
        for step in chains.steps(span) {
            let at = step.function;
            let place = step.place;
            text.push_str(format!(in alloc; "{at}.{place} ")?.as_str())?;
        }
    }
    Ok(text)
}

// The shown chains of all four functions.
fn all_shown(alloc: Global, table: [[Mark; 3]; 4]) -> Result<String, AllocError> {
    let mut chains = Chains::new(alloc, rows(alloc, table)?)?;
    let mut text = String::new(alloc);
    for function in 0..4u32 {
        text.push_str(shown(alloc, &mut chains, function)?.as_str())?;
        text.push_str("| ")?;
    }
    Ok(text)
}

const PATH: [[Mark; 3]; 4] = [
    [PASSES, TO_1, PASSES],
    [TO_2, PASSES, PASSES],
    [PASSES, PASSES, TO_3],
    [PASSES, VIOLATES, VIOLATES],
];

#[test]
fn a_path_is_one_chain(rt: HostRuntime) -> Result<(), Fail> {
    let found = distances(rt.alloc(), rows(rt.alloc(), PATH)?.as_slice())?;
    assert_eq!(rt; found.as_slice(), [4u32, 3, 2, 1].as_slice());
    let text = all_shown(rt.alloc(), PATH)?;
    assert_eq!(rt;
        text.as_str(),
        "0.1 1.0 2.2 3.1 | 1.0 2.2 3.1 | 2.2 3.1 | 3.1 | "
    );
    Ok(())
}

#[test]
fn a_cycle_alone_is_no_violation(rt: HostRuntime) -> Result<(), Fail> {
    let cycle = [
        [TO_1, TO_0, PASSES],
        [PASSES, TO_2, PASSES],
        [TO_0, PASSES, PASSES],
        [TO_3, TO_0, VIOLATES],
    ];
    let found = distances(rt.alloc(), rows(rt.alloc(), cycle)?.as_slice())?;
    assert_eq!(rt; found.as_slice(), [0u32, 0, 0, 1].as_slice());
    let text = all_shown(rt.alloc(), cycle)?;
    assert_eq!(rt; text.as_str(), "| | | 3.2 | ");
    Ok(())
}

#[test]
fn a_cycle_with_a_way_out_has_chains(rt: HostRuntime) -> Result<(), Fail> {
    let cycle = [
        [TO_1, PASSES, PASSES],
        [TO_0, TO_2, PASSES],
        [TO_0, PASSES, TO_3],
        [TO_1, VIOLATES, TO_2],
    ];
    let text = all_shown(rt.alloc(), cycle)?;
    assert_eq!(rt;
        text.as_str(),
        "0.0 1.1 2.2 3.1 | 1.1 2.2 3.1 | 2.2 3.1 | 3.1 | "
    );
    Ok(())
}

#[test]
fn of_two_shortest_chains_the_first_is_shown(rt: HostRuntime) -> Result<(), Fail> {
    let tie = [
        [PASSES, TO_2, TO_1],
        [VIOLATES, PASSES, PASSES],
        [PASSES, TO_3, VIOLATES],
        [VIOLATES, VIOLATES, PASSES],
    ];
    let text = all_shown(rt.alloc(), tie)?;
    assert_eq!(rt; text.as_str(), "0.1 2.2 | 1.0 | 2.2 | 3.0 | ");
    Ok(())
}

#[test]
fn a_later_place_with_fewer_steps_is_shown(rt: HostRuntime) -> Result<(), Fail> {
    let longer_first = [
        [TO_1, TO_3, VIOLATES],
        [TO_2, TO_3, TO_3],
        [TO_3, PASSES, PASSES],
        [PASSES, PASSES, VIOLATES],
    ];
    let text = all_shown(rt.alloc(), longer_first)?;
    assert_eq!(rt; text.as_str(), "0.2 | 1.1 3.2 | 2.0 3.2 | 3.2 | ");
    Ok(())
}

#[test]
fn all_call_all_and_one_violates(rt: HostRuntime) -> Result<(), Fail> {
    let dense = [
        [TO_1, TO_2, TO_3],
        [TO_0, TO_2, TO_3],
        [TO_0, TO_1, TO_3],
        [TO_0, TO_1, VIOLATES],
    ];
    let found = distances(rt.alloc(), rows(rt.alloc(), dense)?.as_slice())?;
    assert_eq!(rt; found.as_slice(), [2u32, 2, 2, 1].as_slice());
    let text = all_shown(rt.alloc(), dense)?;
    assert_eq!(rt; text.as_str(), "0.2 3.2 | 1.2 3.2 | 2.2 3.2 | 3.2 | ");
    Ok(())
}

#[test]
fn a_chain_is_written_once(rt: HostRuntime) -> Result<(), Fail> {
    let mut chains = Chains::new(rt.alloc(), rows(rt.alloc(), PATH)?)?;
    assert_eq!(rt; chains.rows().len(), 4);
    assert!(rt; chains.has_chain(2));
    assert!(rt; chains.has_chain(1));
    let third = chains.chain_of(2)?;
    let second = chains.chain_of(1)?;
    let again = chains.chain_of(2)?;
    assert!(rt; is_span(third, 0, 2));
    assert!(rt; is_span(second, 2, 5));
    assert!(rt; is_span(again, 0, 2));
    let steps = chains.into_steps();
    assert_eq!(rt; steps.len(), 5);
    Ok(())
}

#[test]
fn a_place_starts_a_chain_where_it_violates_or_its_callee_has_one(
    rt: HostRuntime,
) -> Result<(), Fail> {
    let table = [
        [TO_1, TO_2, PASSES],
        [TO_1, PASSES, PASSES],
        [PASSES, VIOLATES, PASSES],
        [PASSES, PASSES, PASSES],
    ];
    let chains = Chains::new(rt.alloc(), rows(rt.alloc(), table)?)?;
    assert_eq!(rt; chains.rows().len(), 4);
    assert!(rt; !chains.starts_chain(0, 0));
    assert!(rt; chains.starts_chain(0, 1));
    assert!(rt; !chains.starts_chain(0, 2));
    assert!(rt; !chains.starts_chain(0, 3));
    assert!(rt; !chains.starts_chain(1, 0));
    assert!(rt; chains.starts_chain(2, 1));
    assert!(rt; !chains.starts_chain(3, 0));
    Ok(())
}
