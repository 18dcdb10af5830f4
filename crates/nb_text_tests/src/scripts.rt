use nb_scripts::{TextRead, kept_result, read_text};
use nb_terms::{Cause, Long, NoMemory, Plain, Reason};
use nb_wire::Text;
use std::alloc::Global;
use std::test::Fail;

fn text(alloc: Global, bytes: &[u8]) -> Result<Text, NoMemory> {
    Ok(Text::from_vec(Vec::from_slice(alloc, bytes)?))
}

/// How many lines the script of a text has, or why it is none.
fn lines(alloc: Global, text: Text) -> Result<Result<usize, Cause>, NoMemory> {
    Ok(match read_text(alloc, text)? {
        TextRead::Runs(script) => Ok(script.len()),
        TextRead::Refused(cause) => Err(cause),
    })
}

/// A script's first line, and then so many of these bytes.
fn long_text(alloc: Global, byte: u8, count: usize) -> Result<Text, NoMemory> {
    let mut bytes = Vec::from_slice(alloc, b"#!ipxe\n")?;
    bytes.extend_from_slice(vec![in alloc; byte; count]?.as_slice())?;
    Ok(Text::from_vec(bytes))
}

/// Texts that are to run, each with its count of lines or its cause: 1,048,576 bytes and lines of 4,096 are the most.
#[test]
fn texts_that_are_to_run(rt: HostRuntime) -> Result<(), Fail> {
    let alloc = rt.alloc();
    let long_line = Cause::from(Reason::TooLong(Long::Line));
    let long_script = Cause::from(Reason::TooLong(Long::Script));
    let rows = [
        (text(alloc, b"#!ipxe\n\nexit 3\n")?, Ok(3)),
        (long_text(alloc, b'a', 4096)?, Ok(2)),
        (text(alloc, b"ipxe")?, Err(Plain::NotScript.cause())),
        (long_text(alloc, b'a', 4097)?, Err(long_line)),
        (long_text(alloc, b'\n', 1_048_576)?, Err(long_script)),
    ];
    for (text, expected) in rows {
        assert_eq!(rt; lines(alloc, text)?, expected);
    }
    Ok(())
}

/// A script keeps a failure with its numbers, and a success without.
#[test]
fn results_that_a_script_keeps(rt: HostRuntime) -> Result<(), Fail> {
    let exit = Cause {
        code: 24,
        a: 3,
        b: 0,
    };
    assert_eq!(rt; kept_result(exit), exit);
    let odd = Cause {
        code: 0,
        a: 3,
        b: 1,
    };
    assert_eq!(rt; kept_result(odd), Plain::Ok.cause());
    Ok(())
}
