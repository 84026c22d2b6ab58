//! Copies of groups, for the conditions that name them.
ghost use Rattle.std.specs.Prelude.{◌≡◌, map, IfOk};
ghost use Rattle.scl_catalogue.specs.Views.{demand_of, group_of, patterns_of, test_of, text_of};

use crate::test::{Demand, Group, Test};
use crate::text::{Patterns, Text};
use scl_values::Mem;
use std::alloc::Global;

fn patterns(alloc: Global, patterns: &Patterns) -> Mem<Patterns>
    ensures { IfOk result (λ copy. patterns_of copy ≡ patterns_of patterns.now) }
{
    Ok(Patterns {
        texts: Vec::from_slice(alloc, &patterns.texts)?,
        cuts: Vec::from_slice(alloc, &patterns.cuts)?,
    })
}

fn text(alloc: Global, text: &Text) -> Mem<Text>
    ensures { IfOk result (λ copy. text_of copy ≡ text_of text.now) }
{
    let any = patterns(alloc, &text.any)?;
    let but = patterns(alloc, &text.but)?;
    Ok(Text { any, but })
}

fn demand(alloc: Global, demand: &Demand) -> Mem<Demand>
    ensures { IfOk result (λ copy. demand_of copy ≡ demand_of demand.now) }
{
    Ok(match demand {
        Demand::Marked(mark) => Demand::Marked(*mark),
        Demand::Value(value) => Demand::Value(text(alloc, value)?),
        Demand::Part(part) => Demand::Part(text(alloc, part)?),
    })
}

fn demands(alloc: Global, all: &[Demand]) -> Mem<Vec<Demand>>
    ensures { IfOk result (λ copies. map demand_of copies.items ≡ map demand_of all.now) }
{
    let mut copies = Vec::with_capacity(alloc, all.len())?;
    for one in all {
        let copy = demand(alloc, one)?;
        copies.push(copy)?;
    }
    Ok(copies)
}

fn test(alloc: Global, test: &Test) -> Mem<Test>
    ensures { IfOk result (λ copy. test_of copy ≡ test_of test.now) }
{
    let names = text(alloc, &test.names)?;
    let demands = demands(alloc, &test.demands)?;
    Ok(Test {
        class: test.class,
        names,
        demands,
    })
}

fn tests(alloc: Global, all: &[Test]) -> Mem<Vec<Test>>
    ensures { IfOk result (λ copies. map test_of copies.items ≡ map test_of all.now) }
{
    let mut copies = Vec::with_capacity(alloc, all.len())?;
    for one in all {
        let copy = test(alloc, one)?;
        copies.push(copy)?;
    }
    Ok(copies)
}

impl Group {
    /// A copy of the group.
    pub fn copied(&self, alloc: Global) -> Mem<Group>
        ensures { IfOk result (λ copy. group_of copy ≡ group_of self.now) }
    {
        let name = Vec::from_slice(alloc, &self.name)?;
        let tests = tests(alloc, &self.tests)?;
        Ok(Group { name, tests })
    }
}
