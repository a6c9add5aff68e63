// The reports of single tickets, written out: the worked one, the least and the greatest, and refused ones.
use crate::texts::{printed, ticket};
use rules::Rule;
use std::alloc::{AllocError, Global};
use std::test::Fail;

// A ticket and its report.
struct Case(&'static str, &'static str);

const CASES: [Case; 13] = [
    // The worked ticket, with enough checks, with just so many, with one less, and with none.
    Case(
        "ticket=1\nrequests=3\nchecks=100\nrules=5\nh=0,-,0,1\nh=0,-,1,2\nh=1,1\nh=2,0\nh=3,2\nend=ticket\n",
        "requests=3\nconflict=1,2\nconflict=1,3\nrelaxation=1\nrelaxation=2,3\nchecks=10\nbound=21\nended=all\n",
    ),
    Case(
        "ticket=1\nrequests=3\nchecks=10\nrules=5\nh=0,-,0,1\nh=0,-,1,2\nh=1,1\nh=2,0\nh=3,2\nend=ticket\n",
        "requests=3\nconflict=1,2\nconflict=1,3\nrelaxation=1\nrelaxation=2,3\nchecks=10\nbound=21\nended=all\n",
    ),
    Case(
        "ticket=1\nrequests=3\nchecks=9\nrules=5\nh=0,-,0,1\nh=0,-,1,2\nh=1,1\nh=2,0\nh=3,2\nend=ticket\n",
        "requests=3\nconflict=1,2\nconflict=1,3\nrelaxation=1\nchecks=9\nbound=20\nended=spent,1\n",
    ),
    Case(
        "ticket=1\nrequests=3\nchecks=0\nrules=5\nh=0,-,0,1\nh=0,-,1,2\nh=1,1\nh=2,0\nh=3,2\nend=ticket\n",
        "requests=3\nchecks=0\nbound=1\nended=spent,1\n",
    ),
    // No request: the empty set is all there is, and it is fit, unfit or not known.
    Case(
        "ticket=1\nrequests=0\nchecks=2\nrules=0\nend=ticket\n",
        "requests=0\nrelaxation=-\nchecks=2\nbound=2\nended=all\n",
    ),
    Case(
        "ticket=1\nrequests=0\nchecks=1\nrules=0\nend=ticket\n",
        "requests=0\nchecks=1\nbound=1\nended=spent,1\n",
    ),
    Case(
        "ticket=1\nrequests=0\nchecks=1\nrules=1\ng=0,15,15,-1\nend=ticket\n",
        "requests=0\nconflict=-\nchecks=1\nbound=2\nended=all\n",
    ),
    // A house whose own rules cannot be met.
    Case(
        "ticket=1\nrequests=5\nchecks=1000000\nrules=2\nf=0,1,31\nf=0,0,31\nend=ticket\n",
        "requests=5\nconflict=-\nchecks=1\nbound=2\nended=all\n",
    ),
    // One request that cannot be met.
    Case(
        "ticket=1\nrequests=1\nchecks=3\nrules=1\nh=1,-\nend=ticket\n",
        "requests=1\nconflict=1\nrelaxation=-\nchecks=3\nbound=3\nended=all\n",
    ),
    // Each letter has a conflict of its own, of which the others know nothing.
    Case(
        "ticket=1\nrequests=6\nchecks=1000\nrules=7\nh=0,-,7,8\nh=1,7\nh=2,8\ng=3,0,1,-1\ng=4,1,0,0\nf=5,1,3\nf=6,0,3\nend=ticket\n",
        "requests=6\nconflict=1,2\nconflict=3,4\nconflict=5,6\nrelaxation=1,3,5\nrelaxation=1,3,6\nrelaxation=1,4,5\nrelaxation=1,4,6\n\
         relaxation=2,3,5\nrelaxation=2,3,6\nrelaxation=2,4,5\nrelaxation=2,4,6\nchecks=25\nbound=48\nended=all\n",
    ),
    // The most requests that a ticket has.
    Case(
        "ticket=1\nrequests=32\nchecks=1000\nrules=0\nend=ticket\n",
        "requests=32\nrelaxation=1,2,3,4,5,6,7,8,9,10,11,12,13,14,15,16,17,18,19,20,21,22,23,24,25,26,27,28,29,30,31,32\nchecks=2\nbound=2\nended=all\n",
    ),
    // Of them the first and the last exclude each other.
    Case(
        "ticket=1\nrequests=32\nchecks=1000\nrules=2\ng=1,0,15,-10000\ng=32,15,0,9999\nend=ticket\n",
        "requests=32\nconflict=1,32\n\
         relaxation=1,2,3,4,5,6,7,8,9,10,11,12,13,14,15,16,17,18,19,20,21,22,23,24,25,26,27,28,29,30,31\n\
         relaxation=2,3,4,5,6,7,8,9,10,11,12,13,14,15,16,17,18,19,20,21,22,23,24,25,26,27,28,29,30,31,32\nchecks=18\nbound=24\nended=all\n",
    ),
    // The last cannot be met.
    Case(
        "ticket=1\nrequests=32\nchecks=1000\nrules=1\nh=32,-\nend=ticket\n",
        "requests=32\nconflict=32\n\
         relaxation=1,2,3,4,5,6,7,8,9,10,11,12,13,14,15,16,17,18,19,20,21,22,23,24,25,26,27,28,29,30,31\nchecks=13\nbound=13\nended=all\n",
    ),
];

#[test]
fn reports_written_out(rt: HostRuntime) -> Result<(), Fail> {
    for Case(text, want) in &CASES {
        let told = printed(rt.alloc(), text.as_bytes())?;
        assert_eq!(rt; told.as_str(), *want, "{text}");
    }
    Ok(())
}

// Texts that are refused, with number, line and field.
const REFUSED: [Case; 14] = [
    Case("", "refused=2,1,0\n"),
    Case(
        "ticket=1\nrequests=3\nchecks=100\nrules=0\nend=ticket",
        "refused=2,5,0\n",
    ),
    Case("ticket=1\nrules=0\n", "refused=3,2,0\n"),
    Case(
        "ticket=1\nrequests=3\nchecks=100\nrules=0\nh=1,1\nend=ticket\n",
        "refused=3,5,0\n",
    ),
    Case(
        "ticket=1\nrequests=3\nchecks=100\nrules=1\ng=1,1\nend=ticket\n",
        "refused=4,5,0\n",
    ),
    Case(
        "ticket=1\nrequests=03\nchecks=100\nrules=0\nend=ticket\n",
        "refused=5,2,1\n",
    ),
    Case(
        "ticket=1\nrequests=3\nchecks=100\nrules=1\ng=1,0,1,-0\nend=ticket\n",
        "refused=5,5,4\n",
    ),
    Case("ticket=2\n", "refused=6,1,1\n"),
    Case(
        "ticket=1\nrequests=33\nchecks=100\nrules=0\nend=ticket\n",
        "refused=6,2,1\n",
    ),
    Case(
        "ticket=1\nrequests=32\nchecks=1000001\nrules=0\nend=ticket\n",
        "refused=6,3,1\n",
    ),
    Case(
        "ticket=1\nrequests=32\nchecks=0\nrules=97\n",
        "refused=6,4,1\n",
    ),
    Case(
        "ticket=1\nrequests=3\nchecks=100\nrules=1\nh=4,1\nend=ticket\n",
        "refused=6,5,1\n",
    ),
    Case(
        "ticket=1\nrequests=3\nchecks=100\nrules=1\nf=1,1,5,5\nend=ticket\n",
        "refused=7,5,4\n",
    ),
    Case(
        "ticket=1\nrequests=3\nchecks=100\nrules=0\nend=ticket\n\n",
        "refused=9,6,0\n",
    ),
];

#[test]
fn refusals_written_out(rt: HostRuntime) -> Result<(), Fail> {
    for Case(text, want) in &REFUSED {
        let told = printed(rt.alloc(), text.as_bytes())?;
        assert_eq!(rt; told.as_str(), *want, "{text}");
    }
    Ok(())
}

// A text of so many bytes: too long it is refused as such, and otherwise at its first line.
#[test]
fn longest_text(rt: HostRuntime) -> Result<(), Fail> {
    for (length, want) in [(16_384, "refused=3,1,0\n"), (16_385, "refused=1,0,0\n")] {
        let text = vec![in rt.alloc(); b'\n'; length]?;
        let told = printed(rt.alloc(), text.as_slice())?;
        assert_eq!(rt; told.as_str(), want, "{length}");
    }
    Ok(())
}

// The report of a ticket with so many rules, of which the last alone says something: request 2 cannot be met.
fn with_rules(heap: Global, count: usize) -> Result<String, AllocError> {
    let mut rules = Vec::new(heap);
    for _ in 1..count {
        rules.push(Rule::gap(1, 3, 3, 0))?;
    }
    rules.push(Rule::gap(2, 3, 3, -1))?;
    let text = ticket(heap, 2, 1_000_000, rules.as_slice())?;
    printed(heap, text.as_bytes())
}

#[test]
fn most_rules(rt: HostRuntime) -> Result<(), Fail> {
    let taken = with_rules(rt.alloc(), 96)?;
    assert_eq!(rt;
        taken.as_str(),
        "requests=2\nconflict=2\nrelaxation=1\nchecks=5\nbound=5\nended=all\n"
    );
    assert_eq!(rt; with_rules(rt.alloc(), 97)?.as_str(), "refused=6,4,1\n");
    Ok(())
}
