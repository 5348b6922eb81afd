use crate::{ChainFault, What, body_of};
use std::alloc::Global;
use std::test::Fail;

fn body(alloc: Global, text: &str) -> Result<String, Fail> {
    match body_of(alloc, text) {
        Ok(body) => match String::from_utf8(body) {
            Ok(body) => Ok(body),
            Err(_) => Err(Fail::new("no UTF-8")),
        },
        Err(ChainFault::At { .. }) => Err(Fail::new("a fault")),
        Err(ChainFault::Memory) => Err(Fail::new("memory")),
    }
}

// As RethinkDB's JavaScript driver sends them, but for the numbers of variables.
#[test]
fn chained_text_is_read_to_the_terms_of_the_driver(rt: HostRuntime) -> Result<(), Fail> {
    let alloc = rt.alloc();
    for (text, expected) in [
        (
            "r.table(\"docs\").filter({n: 5}).orderBy({index: \"n\"}).limit(3)",
            "[1,[71,[[41,[[39,[[15,[\"docs\"]],{\"n\":5}]]],{\"index\":\"n\"}],3]]]",
        ),
        (
            "r.db('d').table('t', {readMode: 'single'}).get(1)",
            "[1,[16,[[15,[[14,[\"d\"]],\"t\"],{\"read_mode\":\"single\"}],1]]]",
        ),
        (
            "r.table('t').insert([{id: 1}, {id: 2}], {conflict: 'replace', returnChanges: true})",
            "[1,[56,[[15,[\"t\"]],[2,[{\"id\":1},{\"id\":2}]]],{\"conflict\":\"replace\",\"return_changes\":true}]]",
        ),
        (
            "r.table('t').filter(x => x('a').gt(3))",
            "[1,[39,[[15,[\"t\"]],[69,[[2,[1]],[21,[[170,[[10,[1]],\"a\"]],3]]]]]]]",
        ),
        (
            "r.table('t').filter(r.row('a').gt(-3))",
            "[1,[39,[[15,[\"t\"]],[69,[[2,[1]],[21,[[170,[[13,[]],\"a\"]],-3]]]]]]]",
        ),
        (
            "r([3, 1]).reduce((a, b) => a.add(b));",
            "[1,[37,[[2,[3,1]],[69,[[2,[1,2]],[24,[[10,[1]],[10,[2]]]]]]]]]",
        ),
        (
            "r.expr(\"a\\\"\\u00e9\\n\").do('it\\'s \"b\"', (x, y) => [x, y])",
            "[1,[64,[[69,[[2,[1,2]],[2,[[10,[1]],[10,[2]]]]]],\"a\\\"\\u00e9\\n\",\"it's \\\"b\\\"\"]]]",
        ),
        (
            "r.table('t').between(r.minval, r.maxval, {index: 'n', leftBound: 'open'}).changes({includeInitial: true})",
            "[1,[152,[[182,[[15,[\"t\"]],[180,[]],[181,[]]],{\"index\":\"n\",\"left_bound\":\"open\"}]],{\"include_initial\":true}]]",
        ),
        (
            "r.table('t').orderBy({index: r.desc('n')})",
            "[1,[41,[[15,[\"t\"]]],{\"index\":[74,[\"n\"]]}]]",
        ),
        (
            "r([1]).map(function (x) { return x.eq({}); })",
            "[1,[38,[[2,[1]],[69,[[2,[1]],[17,[[10,[1]],{}]]]]]]]",
        ),
        ("r.now()", "[1,[103,[]]]"),
    ] {
        let read = body(alloc, text)?;
        assert_eq!(rt; read.as_str(), expected);
    }
    Ok(())
}

#[test]
fn a_fault_points_at_its_column(rt: HostRuntime) -> Result<(), Fail> {
    let alloc = rt.alloc();
    for (text, column, what) in [
        ("r.table('é').foo()", 14, What::Operator),
        ("r.table('t'", 12, What::CommaOr(')')),
        ("r.table('t)", 9, What::Text),
        ("r.expr(01)", 8, What::Number),
        ("r.expr(x)", 8, What::Variable),
        ("r.now() 5", 9, What::Rest),
        ("r.expr({1: 2})", 9, What::Name),
        ("r.expr(5) + 1", 11, What::Character),
        ("r.expr(,)", 8, What::Term),
        ("r.now", 6, What::Mark('(')),
        ("r(1).do(function (x) { x })", 24, What::Return),
    ] {
        match body_of(alloc, text) {
            Err(fault) => assert_eq!(rt; fault, ChainFault::At { column, what }),
            Ok(_) => return Err(Fail::new("no fault")),
        }
    }
    Ok(())
}
