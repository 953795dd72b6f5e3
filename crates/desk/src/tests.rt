// Lines of a script and what the desk says of them.
use crate::carry_out::carry;
use crate::print::text_of;
use crate::script::read;
use commands::session::Session;
use commands::slot::Slot;
use pools::bench::Bench;
use std::alloc::Global;
use std::process::Abort;
use std::test::Fail;

type SmallSite = Slot<Bench>;

fn says(
    rt: &impl Abort,
    heap: Global,
    session: &mut Session<SmallSite>,
    line: &[u8],
    text: &str,
) -> Result<(), Fail> {
    let outcome = carry(session, read(heap, line)?);
    let Ok(Some(said)) = text_of(heap, 7, outcome)? else {
        return Err(Fail::new("nothing was said, or a mistake was told"));
    };
    assert_eq!(rt; said.as_str(), text);
    Ok(())
}

fn mistakes(
    rt: &impl Abort,
    heap: Global,
    session: &mut Session<SmallSite>,
    line: &[u8],
    text: &str,
) -> Result<(), Fail> {
    let outcome = carry(session, read(heap, line)?);
    let Err(told) = text_of(heap, 7, outcome)? else {
        return Err(Fail::new("no mistake was told"));
    };
    assert_eq!(rt; told.as_str(), text);
    Ok(())
}

#[test]
fn each_mistake_is_told_and_changes_nothing(rt: HostRuntime) -> Result<(), Fail> {
    let heap = rt.alloc();
    let mut session: Session<SmallSite> = Session::new();
    says(&rt, heap, &mut session, b"site 9 18", "7: site of 9 18 0 0")?;
    says(
        &rt,
        heap,
        &mut session,
        b"take 1 4",
        "7: taken; in use 1 4 0 0",
    )?;
    let mistaken: [(&[u8], &str); 13] = [
        (
            b"tkae 1",
            "7: not understood: there is no command \"tkae\"; there are site, reserve, limit, take, give, fits and used",
        ),
        (
            b"Take 1",
            "7: not understood: there is no command \"Take\"; there are site, reserve, limit, take, give, fits and used",
        ),
        (b"take", "7: not understood: one to four numbers are wanted"),
        (
            b"site # 4",
            "7: not understood: one to four numbers are wanted",
        ),
        (
            b"give 1 2 3 4 5",
            "7: not understood: there are more than four numbers",
        ),
        (
            b"take -1",
            "7: not understood: \"-1\" is not a decimal number",
        ),
        (
            b"take +1",
            "7: not understood: \"+1\" is not a decimal number",
        ),
        (
            b"take 1,4",
            "7: not understood: \"1,4\" is not a decimal number",
        ),
        (
            b"take 4294967296",
            "7: not understood: \"4294967296\" is above 4294967295",
        ),
        (
            b"limit 18446744073709551616 weights 1",
            "7: not understood: \"18446744073709551616\" is above 18446744073709551615",
        ),
        (
            b"limit 9 2 1",
            "7: not understood: write `limit NUMBER weights` and the weights",
        ),
        (b"used up", "7: not understood: \"up\" is not wanted here"),
        (
            b"used \xff",
            "7: not understood: the line is not UTF-8 text",
        ),
    ];
    for (line, text) in mistaken {
        mistakes(&rt, heap, &mut session, line, text)?;
    }
    says(
        &rt,
        heap,
        &mut session,
        b"used",
        "7: in use 1 4 0 0 of 9 18 0 0",
    )
}

#[test]
fn blank_lines_say_nothing_and_white_space_does_not_count(rt: HostRuntime) -> Result<(), Fail> {
    let heap = rt.alloc();
    let mut session: Session<SmallSite> = Session::new();
    let blank: [&[u8]; 3] = [b"", b" \t\r", b"  # take 1"];
    for line in blank {
        let outcome = carry(&mut session, read(heap, line)?);
        assert!(rt; text_of(heap, 7, outcome)?.is_ok_and(|said| said.is_none()));
    }
    says(
        &rt,
        heap,
        &mut session,
        b"used",
        "7: no site yet: begin with `site`",
    )?;
    says(
        &rt,
        heap,
        &mut session,
        b"\tsite  0004 # four\r",
        "7: site of 4 0 0 0",
    )?;
    says(
        &rt,
        heap,
        &mut session,
        b"take 4#all",
        "7: taken; in use 4 0 0 0",
    )
}

#[test]
fn layers_are_laid_while_there_is_a_place(rt: HostRuntime) -> Result<(), Fail> {
    let heap = rt.alloc();
    let mut session: Session<SmallSite> = Session::new();
    says(
        &rt,
        heap,
        &mut session,
        b"reserve 1",
        "7: no site yet: begin with `site`",
    )?;
    says(&rt, heap, &mut session, b"site 4 4", "7: site of 4 4 0 0")?;
    says(
        &rt,
        heap,
        &mut session,
        b"limit 9 weights 2 1025",
        "7: refused with 9: a weight is above 1024 or the limit above 1099511627776",
    )?;
    says(
        &rt,
        heap,
        &mut session,
        b"limit 9 weights 2 1",
        "7: load limit of 9 with weights 2 1 0 0",
    )?;
    says(
        &rt,
        heap,
        &mut session,
        b"reserve 1",
        "7: no place for this layer: the desk lays at most four",
    )?;
    says(&rt, heap, &mut session, b"fits 4 1", "7: it fits")?;
    says(&rt, heap, &mut session, b"fits 4 2", "7: it does not fit")
}
