//! The lines as they are printed.
use kc_report::{Line, core_lines, generate, member_lines, summary};
use std::test::Fail;

#[test]
fn lines_follow_one_another(rt: HostRuntime) -> Result<(), Fail> {
    let graph = Line::Graph {
        vertices: 4,
        edges: 3,
        top: 1,
    };
    let batch = Line::Batch {
        number: 1,
        added: 1,
        removed: 0,
        kept: 0,
        overruled: 3,
        edges: 4,
        top: 2,
    };
    let mut out = Vec::new(rt.alloc());
    summary(&mut out, &graph)?;
    summary(&mut out, &Line::Rounds { rounds: 12 })?;
    summary(&mut out, &batch)?;
    core_lines(&mut out, &[1, 20, 4_294_967_295], &[2, 2, 0])?;
    member_lines(&mut out, &[1, 20, 4_294_967_295], &[2, 3, 0], 2)?;
    let wanted =
        b"graph vertices 4 edges 3 top 1\nhindex rounds 12\nbatch 1 added 1 removed 0 kept 0 overruled 3 edges 4 top 2\n\
        1 2\n20 2\n4294967295 0\nlevel 2 members 2\n1\n20\n";
    assert_eq!(rt; out.as_slice(), wanted.as_slice());
    Ok(())
}

// The length and the two ends were worked out by another program, from the rule alone.
#[test]
fn a_generated_text_is_as_long_as_the_rule_makes_it(rt: HostRuntime) -> Result<(), Fail> {
    let text = generate(rt.alloc(), 7)?;
    assert_eq!(rt; text.len(), 536_061);
    assert!(rt; text.starts_with(b"5278 3231\n6753 8673\n"));
    assert!(rt; text.ends_with(b"+ 9948 7364\n- 8811 64\n"));
    Ok(())
}
