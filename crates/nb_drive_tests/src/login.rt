use nb_iscsipdu::Pdu;
use nb_login::{Login, LoginInfo, LoginRefusal, SentName, Session};
use nb_terms::{Acts, NoMemory};
use nb_wire::Text;
use std::alloc::{AllocError, Global};
use std::process::Abort;
use std::test::Fail;

/// What is set of a login: the user and the secret, and the target's user and secret.
type Names = [&'static [u8]; 4];

const NOBODY: Names = [b"", b"", b"", b""];

const USER: Names = [b"u", b"b", b"", b""];

const BOTH: Names = [b"u", b"b", b"r", b"bcdefghij"];

/// What is set, as the rows name it.
fn names(who: &str) -> Names {
    match who {
        "user" => USER,
        "both" => BOTH,
        _ => NOBODY,
    }
}

/// What a request asks.
#[derive(Clone, Copy, Drop)]
enum Asks {
    Algorithm,
    Response,
    ResponseBack,
    Parameters,
    Security,
    Operational,
}

/// An answer's flags and keys, and the request that it calls for.
type Going = (u8, &'static [u8], Asks);

const NO_CHAP: Going = (0x81, b"AuthMethod=None\0", Asks::Parameters);

const CHAP: Going = (0x81, b"AuthMethod=CHAP\0", Asks::Algorithm);

const CHALLENGE: Going = (0x00, CHALLENGE_KEYS, Asks::Response);

const CHALLENGE_BACK: Going = (0x00, CHALLENGE_KEYS, Asks::ResponseBack);

const TAKEN: Going = (0x81, b"", Asks::Parameters);

const TAKEN_BACK: Going = (
    0x81,
    b"CHAP_N=r\0CHAP_R=0XC3FCD3D76192E4007DFB496CCA67E13B\0",
    Asks::Parameters,
);

const STAYS: Going = (0x00, b"", Asks::Security);

const STAYS_LATER: Going = (0x04, b"", Asks::Operational);

const CHALLENGE_KEYS: &[u8] = b"CHAP_A=5\0CHAP_I=97\0CHAP_C=0bYw==\0";

/// An answer after which the login goes on, as the rows name it.
fn going(letter: char) -> Going {
    match letter {
        'n' => NO_CHAP,
        'c' => CHAP,
        'i' => CHALLENGE,
        'j' => CHALLENGE_BACK,
        't' => TAKEN,
        'u' => TAKEN_BACK,
        'o' => STAYS_LATER,
        _ => STAYS,
    }
}

/// A request's flags and keys. The response is RFC 1321's digest of `abc`: the identifier 97, the secret `b`, the
/// challenge `c`; the target is to answer with its digest of the alphabet.
fn asked(asks: Asks) -> (u8, &'static [u8]) {
    match asks {
        Asks::Algorithm => (0x00, b"CHAP_A=5\0"),
        Asks::Response => (
            0x81,
            b"CHAP_N=u\0CHAP_R=0x900150983cd24fb0d6963f7d28e17f72\0",
        ),
        Asks::ResponseBack => (
            0x81,
            b"CHAP_N=u\0CHAP_R=0x900150983cd24fb0d6963f7d28e17f72\0CHAP_I=97\0CHAP_C=0x6b6c6d6e6f707172737475767778797a\0",
        ),
        Asks::Parameters => (
            0x87,
            b"HeaderDigest=None\0DataDigest=None\0MaxConnections=1\0InitialR2T=Yes\0ImmediateData=No\0MaxRecvDataSegmentLength=8192\0MaxBurstLength=262144\0FirstBurstLength=65536\0DefaultTime2Wait=0\0DefaultTime2Retain=0\0MaxOutstandingR2T=1\0DataPDUInOrder=Yes\0DataSequenceInOrder=Yes\0ErrorRecoveryLevel=0\0",
        ),
        Asks::Security => (0x81, b""),
        Asks::Operational => (0x87, b""),
    }
}

fn text(alloc: Global, bytes: &[u8]) -> Result<Text, AllocError> {
    Ok(Text::from_vec(Vec::from_slice(alloc, bytes)?))
}

fn info(alloc: Global, names: Names) -> Result<LoginInfo, AllocError> {
    let [user, secret, reverse_user, reverse_secret] = names;
    Ok(LoginInfo {
        initiator: text(alloc, b"iqn.x:i")?,
        target: text(alloc, b"iqn.x:t")?,
        lun: [0; 8],
        user: text(alloc, user)?,
        secret: text(alloc, secret)?,
        reverse_user: text(alloc, reverse_user)?,
        reverse_secret: text(alloc, reverse_secret)?,
        words: [
            0, 0x01020304, 0x05060761, 0x6b6c6d6e, 0x6f707172, 0x73747576, 0x7778797a, 0,
        ],
    })
}

/// A request as RFC 7143, section 11.12, lays it out, of the task 1 and with CmdSN 1.
fn request(alloc: Global, flags: u8, exp_stat_sn: u8, keys: &[u8]) -> Result<Vec<u8>, AllocError> {
    let mut text = Vec::from_slice(alloc, &[0x43, flags, 0, 0])?;
    text.extend_from_slice(&(keys.len().min(8192) as u32).to_be_bytes())?;
    text.extend_from_slice(&[
        0x80, 2, 3, 4, 0, 0, 0, 0, 0, 0, 0, 1, 0, 0, 0, 0, 0, 0, 0, 1,
    ])?;
    text.extend_from_slice(&[0, 0, 0, exp_stat_sn])?;
    text.extend_from_slice(&[0; 16])?;
    text.extend_from_slice(keys)?;
    let padding = (4 - keys.len() % 4) % 4;
    text.extend_from_slice(&[0; 3][..padding])?;
    Ok(text)
}

/// The head of an answer with StatSN 6.
fn head(opcode: u8, flags: u8, status: [u8; 2]) -> [u8; 48] {
    let mut head = [0; 48];
    head[0] = opcode;
    head[1] = flags;
    head[27] = 6;
    head[36] = status[0];
    head[37] = status[1];
    head
}

fn is_text(put: &Option<Text>, wanted: &[u8]) -> bool {
    match put {
        Some(text) => text.as_slice() == wanted,
        None => false,
    }
}

/// Gives a login this answer, and returns whether it makes the request that is called for, and no end.
fn goes_on(
    login: &mut Login,
    alloc: Global,
    going: &Going,
    acts: &mut Acts,
) -> Result<bool, NoMemory> {
    let (flags, keys, asks) = going;
    let pdu = Pdu {
        head: head(0x23, *flags, [0, 0]),
        seg: keys,
    };
    let put = login.pdu(alloc, 8, &pdu, acts)?;
    let (flags, keys) = asked(*asks);
    let wanted = request(alloc, flags, 7, keys)?;
    Ok(is_text(&put, wanted.as_slice()) && acts.over.is_none())
}

/// The keys of an answer, in which a blank stands for each zero byte.
fn keys(alloc: Global, text: &str) -> Result<Vec<u8>, AllocError> {
    let mut keys = Vec::new(alloc);
    for byte in text.as_bytes() {
        keys.push(if *byte == b' ' { 0 } else { *byte })?;
    }
    Ok(keys)
}

/// The last answer's head: its opcode, flags, and the class and detail of its status, as hexadecimal digits.
fn last_head(digits: &str) -> Option<[u8; 48]> {
    let [opcode, flags, class, detail] = u32::from_str_radix(digits, 16).ok()?.to_be_bytes();
    Some(head(opcode, flags, [class, detail]))
}

/// The cause of an end, as the rows show it.
fn cause(alloc: Global, acts: &Acts) -> Result<Vec<u8>, Fail> {
    let cause = acts.over.ok_or("it goes on")?;
    let (code, a, b) = (cause.code, cause.a, cause.b);
    Ok(format!(in alloc; "{code} {a} {b}")?.into_bytes())
}

/// A session, as the rows show it.
fn opened(alloc: Global, session: &Session) -> Result<Vec<u8>, Fail> {
    let (chap, task) = (session.chap, session.task);
    let (cmd_sn, exp_stat_sn) = (session.cmd_sn, session.exp_stat_sn);
    let text = format!(in alloc;
        " chap {chap} CmdSN {cmd_sn} ExpStatSN {exp_stat_sn} task {task} "
    )?;
    let mut text = text.into_bytes();
    text.extend_from_slice(session.info.target.as_slice())?;
    Ok(text)
}

/// The session that a login hands out, as the rows show it. Nothing where there is none.
fn session(alloc: Global, login: &mut Login) -> Result<Vec<u8>, Fail> {
    match login.session() {
        Some(session) => opened(alloc, &session),
        None => Ok(Vec::new(alloc)),
    }
}

/// Gives a login the answers of these letters.
fn go(alloc: Global, login: &mut Login, letters: &str) -> Result<(), Fail> {
    let mut acts = Acts::none();
    for letter in letters.chars() {
        if !goes_on(login, alloc, &going(letter), &mut acts)? {
            return Err(Fail::new("another request"));
        }
    }
    Ok(())
}

/// Gives a login its last answer, and returns how it ends.
fn end(alloc: Global, login: &mut Login, last: &Pdu<'_>) -> Result<Vec<u8>, Fail> {
    let mut acts = Acts::none();
    if login.pdu(alloc, 9, last, &mut acts)?.is_some() {
        return Err(Fail::new("it asks on"));
    }
    let mut text = cause(alloc, &acts)?;
    text.extend_from_slice(session(alloc, login)?.as_slice())?;
    Ok(text)
}

/// How a login ends that gets the answers of these letters and then the last one, with all the sessions that it
/// hands out.
fn end_of(
    alloc: Global,
    login: &mut Login,
    letters: &str,
    last: &Pdu<'_>,
) -> Result<Vec<u8>, Fail> {
    go(alloc, login, letters)?;
    let mut text = end(alloc, login, last)?;
    text.extend_from_slice(session(alloc, login)?.as_slice())?;
    Ok(text)
}

/// The same of a login for which this is set.
fn end_after(alloc: Global, who: &str, letters: &str, last: &Pdu<'_>) -> Result<Vec<u8>, Fail> {
    let (mut login, _) = Login::start(alloc, info(alloc, names(who))?)?;
    end_of(alloc, &mut login, letters, last)
}

/// The first request of a login for which this is set.
fn first_request(alloc: Global, names: Names) -> Result<Text, Fail> {
    let (_, put) = Login::start(alloc, info(alloc, names)?)?;
    Ok(put)
}

#[test]
fn begins_with_the_names(rt: HostRuntime) -> Result<(), Fail> {
    for (names, keys) in [
        (
            NOBODY,
            b"InitiatorName=iqn.x:i\0TargetName=iqn.x:t\0SessionType=Normal\0AuthMethod=None\0".as_slice(),
        ),
        (
            USER,
            b"InitiatorName=iqn.x:i\0TargetName=iqn.x:t\0SessionType=Normal\0AuthMethod=CHAP,None\0",
        ),
    ] {
        let put = first_request(rt.alloc(), names)?;
        let wanted = request(rt.alloc(), 0x81, 0, keys)?;
        assert!(rt; put.as_slice() == wanted.as_slice(), "{names:?}");
    }
    Ok(())
}

/// An initiator's name, a target's, a user and a secret; the name that is refused, and the code of the cause.
type Zeros = ([&'static [u8]; 4], Option<(SentName, u8)>);

/// A zero byte ends a key's text (RFC 7143, section 6.1): a name that is sent may hold none. A secret isn't sent.
const ZEROS: [Zeros; 5] = [
    (
        [b"i\0AuthMethod=None", b"t", b"u", b"s"],
        Some((SentName::Initiator, 18)),
    ),
    ([b"i", b"t\0", b"u", b"s"], Some((SentName::Target, 15))),
    ([b"i", b"t", b"\0u", b"s"], Some((SentName::User, 18))),
    ([b"i", b"\0", b"\0", b"s"], Some((SentName::Target, 15))),
    ([b"i", b"t", b"u", b"s\0s"], None),
];

/// Why a login with these names, an initiator's, a target's, a user and a secret, is refused.
fn refusal_of(alloc: Global, names: Names) -> Result<Option<LoginRefusal>, AllocError> {
    let [initiator, target, user, secret] = names;
    let mut info = info(alloc, [user, secret, b"", b""])?;
    info.initiator = text(alloc, initiator)?;
    info.target = text(alloc, target)?;
    Ok(Login::start(alloc, info).err())
}

#[test]
fn refuses_zero_bytes(rt: HostRuntime) -> Result<(), Fail> {
    for (names, expected) in ZEROS {
        let refusal = refusal_of(rt.alloc(), names)?;
        let name = expected.map(|(name, _)| LoginRefusal::ZeroByte(name));
        assert_eq!(rt; refusal, name, "{names:?}");
        let code = refusal.map(|refusal| refusal.cause().code);
        assert_eq!(rt; code, expected.map(|(_, code)| code), "{names:?}");
    }
    Ok(())
}

/// What is set, the letters of the answers before the last, the last one's head and keys, and how the login ends: by
/// a code, a place and a number, and with the session that it opened.
const LOGINS: &str = "\
none|n|23870000|HeaderDigest=None DataDigest=None |0 0 0 chap 0 CmdSN 1 ExpStatSN 7 task 2 iqn.x:t\n\
none|sno|23870000|HeaderDigest=None DataDigest=None |0 0 0 chap 0 CmdSN 1 ExpStatSN 7 task 2 iqn.x:t\n\
user|cit|23870000|HeaderDigest=None DataDigest=None |0 0 0 chap 1 CmdSN 1 ExpStatSN 7 task 2 iqn.x:t\n\
user|scist|23870000|HeaderDigest=None DataDigest=None |0 0 0 chap 1 CmdSN 1 ExpStatSN 7 task 2 iqn.x:t\n\
both|cju|23870000|HeaderDigest=None DataDigest=None |0 0 0 chap 2 CmdSN 1 ExpStatSN 7 task 2 iqn.x:t\n\
none||23810201||1 9 513\n\
none||23870102|HeaderDigest=CRC32C |1 9 258\n\
none||23810000|AuthMethod=CHAP |11 0 0\n\
none||23870000|AuthMethod=CHAP |3 9 0\n\
none||23810000|DataDigest=CRC32C |3 9 0\n\
none|ssss|23000000||3 9 0\n\
none|ssnoo|23040000||3 9 0\n\
none|n|23810000||3 9 0\n\
user|c|23810000|CHAP_A=5 CHAP_I=97 CHAP_C=0bYw== |3 9 0\n\
user|c|23000000|CHAP_A=7 CHAP_I=97 CHAP_C=0bYw== |3 9 0\n\
user|c|23000000|CHAP_A=5 CHAP_I=256 CHAP_C=0bYw== |3 9 0\n\
user|c|23000000|CHAP_A=5 CHAP_I=97 CHAP_C=Yw== |3 9 0\n\
both||23810000|AuthMethod=None |3 9 0\n\
both||23000000|AuthMethod=None |3 9 0\n\
both|cj|23810000|CHAP_N=q CHAP_R=0xc3fcd3d76192e4007dfb496cca67e13b |3 9 0\n\
both|cj|23000000|CHAP_N=r CHAP_R=0x900150983cd24fb0d6963f7d28e17f72 |3 9 0\n\
none||20810000||3 9 0\n\
none||21810000||3 9 0\n\
none||25810000||3 9 0\n\
none||3f810000||3 9 0\n\
";

/// A row: what is set, the letters, the last answer's head and keys, and the end.
type Row<'a> = (&'a str, &'a str, &'a str, &'a str, &'a str);

fn fields(row: &str) -> Option<Row<'_>> {
    let (who, rest) = row.split_once('|')?;
    let (letters, rest) = rest.split_once('|')?;
    let (digits, rest) = rest.split_once('|')?;
    let (keys, end) = rest.split_once('|')?;
    Some((who, letters, digits, keys, end))
}

/// How a row's login ends.
fn found(
    alloc: Global,
    who: &str,
    letters: &str,
    digits: &str,
    text: &str,
) -> Result<Vec<u8>, Fail> {
    let keys = keys(alloc, text)?;
    let last = Pdu {
        head: last_head(digits).ok_or("no digits")?,
        seg: keys.as_slice(),
    };
    end_after(alloc, who, letters, &last)
}

fn agrees(rt: &impl Abort, alloc: Global, row: &str) -> Result<(), Fail> {
    let (who, letters, digits, text, end) = fields(row).ok_or("no row")?;
    let found = found(alloc, who, letters, digits, text)?;
    assert_eq!(rt; found.as_slice(), end.as_bytes(), "{row}");
    Ok(())
}

#[test]
fn ends(rt: HostRuntime) -> Result<(), Fail> {
    for row in LOGINS.lines() {
        agrees(&rt, rt.alloc(), row)?;
    }
    Ok(())
}
