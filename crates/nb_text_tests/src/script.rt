use nb_script::{Item, Join, Script, ScriptError, ScriptLine};
use nb_wire::Text;
use std::alloc::{AllocError, Global};
use std::process::Abort;
use std::test::Fail;

/// Texts and their lines, each in brackets: `:` before a label's name, `>` before a list, `-` for nothing.
const LINES: &str = "\
#!ipxe%[-]@\
#!ipxe \t\r\n%[-]@\
#!ipxe\necho a\r\nexit\r%[-][>echo a][>exit\r]@\
#!ipxe\n\n \t\n# a\n \t#a b\n%[-][-][-][-][-]@\
#!ipxe\n \techo  a \t\n%[-][>echo  a]@\
#!ipxe\n:start\n\t:end \t\n:#\n%[-][:start][:end][:#]@\
#!ipxe\n:\n:a b\n:a # b\na:\n%[-][>:][>:a b][>:a # b][>a:]@\
#!ipxe\necho a\\\nb\nexit\n%[-][>echo ab][-][>exit]@\
#!ipxe\na \\\r\n b\\\r\nc\r\nd%[-][>a  bc][-][-][>d]@\
#!ipxe\n# a\\\necho b\n:c\\\nd\n%[-][-][-][:cd][-]@\
#!ipxe\n\\\n\\\n\necho a\n%[-][-][-][-][>echo a]@\
#!ipxe\necho a\\\\\nb\n%[-][>echo a\\b][-]@\
#!ipxe\necho a\\ \nb\n%[-][>echo a\\][>b]@\
#!ipxe\necho a\\%[-][>echo a\\]@\
#!ipxe\necho a\\\n%[-][>echo a]@\
#!ipxe\necho a\\\r%[-][>echo a\\\r]";

/// Lines and their commands: each join as it is written, `^` for the first, and each word in brackets.
const COMMANDS: &str = "\
echo a%^[echo][a]@\
a && b || c ; d e%^[a]&&[b]||[c];[d][e]@\
a # b && c%^[a]@\
a && # b%^[a]&&@\
&& a || ; b%^&&[a]||;[b]@\
a&&b ;; &&& |%^[a&&b][;;][&&&][|]@\
${a b} # c%^[${a][b}]";

/// What follows a first line, as a head, a piece, how many times that stands and a tail; and the next busy line after
/// the first, from 0, or why the text is refused.
const BUSY: &str = "\
%%0%%1@\
# a% && b%9%%2@\
:a%%0%%2@\
:a%%0% b%1@\
:%%0%%1@\
&&%%0%%2@\
&& a%%0%%1@\
|| a%%0%%2@\
|| a b% || c%9%%2@\
|| a && ; || b ; # c%%0%%2@\
|| a && b%%0%%1@\
|| a ; b%%0%%1@\
%; %64%%2@\
%; %65%%1@\
|| a% a%63%%2@\
|| a% a%64%%1@\
%a%4096%\r\n%1@\
%a%4097%\n%LineTooLong@\
%ab\\\n%2048%c%LineTooLong@\
%\n%9999%a%10000";

/// Texts that are no scripts.
const OTHERS: [&str; 5] = ["", "\n#!ipxe", " #!ipxe", "#!ipxe2", "#!ipxe\\\n"];

fn read(alloc: Global, text: &[u8]) -> Result<Script, ScriptError> {
    match Vec::from_slice(alloc, text) {
        Ok(copy) => Script::read(alloc, Text::from_vec(copy)),
        Err(_) => Err(ScriptError::NoMemory),
    }
}

fn shown(alloc: Global, script: &Script) -> Result<Vec<u8>, Fail> {
    let mut text = Vec::new(alloc);
    for i in 0..script.len() {
        let (mark, content) = match script.line(i) {
            Some(ScriptLine::Label(name)) => (b':', name),
            Some(ScriptLine::List(line)) => (b'>', line),
            Some(ScriptLine::Nothing) => (b'-', b"".as_slice()),
            None => (b'?', b"".as_slice()),
        };
        text.push(b'[')?;
        text.push(mark)?;
        text.extend_from_slice(content)?;
        text.push(b']')?;
    }
    Ok(text)
}

#[test]
fn cuts_lines(rt: HostRuntime) -> Result<(), Fail> {
    for row in LINES.split('@') {
        let (text, expected) = row.split_once('%').ok_or("no lines")?;
        let found = shown(rt.alloc(), &read(rt.alloc(), text.as_bytes())?)?;
        assert_eq!(rt; found.as_slice(), expected.as_bytes(), "at {text:?}");
    }
    for text in OTHERS {
        let refusal = read(rt.alloc(), text.as_bytes()).err();
        assert_eq!(rt; refusal, Some(ScriptError::NotScript), "at {text:?}");
    }
    Ok(())
}

fn joined(join: Join) -> &'static str {
    match join {
        Join::First => "^",
        Join::And => "&&",
        Join::Or => "||",
        Join::Then => ";",
    }
}

fn put_item(text: &mut Vec<u8>, item: &Item) -> Result<(), AllocError> {
    text.extend_from_slice(joined(item.join).as_bytes())?;
    for word in item.words.as_slice() {
        text.push(b'[')?;
        text.extend_from_slice(word.as_slice())?;
        text.push(b']')?;
    }
    Ok(())
}

/// The commands of a line, of which no more than 4,096 bytes are looked at.
fn commands(alloc: Global, line: &[u8]) -> Result<Vec<u8>, Fail> {
    let mut text = Vec::new(alloc);
    let items = Script::list(alloc, &line[..line.len().min(4096)])?;
    for item in &items {
        put_item(&mut text, item)?;
    }
    Ok(text)
}

#[test]
fn cuts_commands(rt: HostRuntime) -> Result<(), Fail> {
    for row in COMMANDS.split('@') {
        let (line, expected) = row.split_once('%').ok_or("no commands")?;
        let found = commands(rt.alloc(), line.as_bytes())?;
        assert_eq!(rt; found.as_slice(), expected.as_bytes(), "at {line:?}");
    }
    Ok(())
}

/// The text of a row, and what is expected of it.
fn repeated(alloc: Global, row: &str) -> Result<(Vec<u8>, &str), Fail> {
    let (head, rest) = row.split_once('%').ok_or("no head")?;
    let (piece, rest) = rest.split_once('%').ok_or("no piece")?;
    let (count, rest) = rest.split_once('%').ok_or("no count")?;
    let (tail, expected) = rest.split_once('%').ok_or("no tail")?;
    let count = count.parse::<u32>().ok().ok_or("no number")?;
    let mut text = Vec::from_slice(alloc, b"#!ipxe\n")?;
    text.extend_from_slice(head.as_bytes())?;
    for _ in 0..count {
        text.extend_from_slice(piece.as_bytes())?;
    }
    text.extend_from_slice(tail.as_bytes())?;
    Ok((text, expected))
}

/// The next busy line after the first, or why the text is refused.
fn next_busy(alloc: Global, text: &[u8]) -> Result<Vec<u8>, Fail> {
    match read(alloc, text) {
        Ok(script) => {
            let next = script.next_busy(script.len().min(1));
            Ok(format!(in alloc; "{next}")?.into_bytes())
        }
        Err(why) => Ok(format!(in alloc; "{why:?}")?.into_bytes()),
    }
}

fn finds_busy(rt: &impl Abort, alloc: Global, row: &str) -> Result<(), Fail> {
    let (text, expected) = repeated(alloc, row)?;
    let found = next_busy(alloc, text.as_slice())?;
    assert_eq!(rt; found.as_slice(), expected.as_bytes(), "at {row:?}");
    Ok(())
}

#[test]
fn finds_busy_lines_and_labels(rt: HostRuntime) -> Result<(), Fail> {
    for row in BUSY.split('@') {
        finds_busy(&rt, rt.alloc(), row)?;
    }
    let script = read(rt.alloc(), b"#!ipxe\necho a\n:b\n:a\n:b\n:e\\\nf\n")?;
    for (name, place) in [("b", Some(2)), ("ef", Some(5)), ("e", None)] {
        assert_eq!(rt; script.label(name.as_bytes()), place, "at {name}");
    }
    Ok(())
}
