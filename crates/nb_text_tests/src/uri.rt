use nb_terms::NoMemory;
use nb_uri::{UriError, UriTarget, image_name, number, resolve};
use nb_wire::{Ip4, Text};
use std::alloc::Global;
use std::process::Abort;
use std::test::Fail;

/// A base, where there is one, a text, and what it names: a scheme, a host, a port, a path and the URI without its
/// fragment; or why it names nothing. By the URL Standard, section 4.4, RFC 1350 and RFC 9110; dots never lead out of
/// the root (RFC 3986, section 5.2.4).
const FILES: &str = "\
|tftp://10.0.0.1/f|tftp|10.0.0.1|69|f|tftp://10.0.0.1/f\n\
|tftp://a.b//f|tftp|a.b|69|/f|tftp://a.b//f\n\
|tftp://h|tftp|h|69||tftp://h\n\
|tftp://h:69/a|tftp|h|69|a|tftp://h:69/a\n\
|tftp://h:/a|tftp|h|69|a|tftp://h/a\n\
|TFTP://H:65535/A|tftp|H|65535|A|tftp://H:65535/A\n\
|tftp://h/a?b#c|tftp|h|69|a|tftp://h/a?b\n\
|tftp://h/a%20b%2Fc|tftp|h|69|a b/c|tftp://h/a%20b%2Fc\n\
|tftp://h/a%2500|tftp|h|69|a%00|tftp://h/a%2500\n\
|tftp://h/a%zz|tftp|h|69|a%zz|tftp://h/a%zz\n\
|tftp://h/a b|tftp|h|69|a b|tftp://h/a%20b\n\
|tftp://h/\u{e9}|tftp|h|69|\u{e9}|tftp://h/%C3%A9\n\
|tftp://u:p@h/a|tftp|h|69|a|tftp://u:p@h/a\n\
|tftp://0x7f.1/a|tftp|0x7f.1|69|a|tftp://0x7f.1/a\n\
|http://h|http|h|80|/|http://h/\n\
|http://h/a?|http|h|80|/a?|http://h/a?\n\
|http://h/a?b=c&d#e|http|h|80|/a?b=c&d|http://h/a?b=c&d\n\
|http://h?b|http|h|80|/?b|http://h/?b\n\
|http://h:80/a|http|h|80|/a|http://h/a\n\
|http://h:8080/a|http|h|8080|/a|http://h:8080/a\n\
|http://h:00081/a|http|h|81|/a|http://h:81/a\n\
|http://h:65535/|http|h|65535|/|http://h:65535/\n\
|http://u:p@h/a|http|h|80|/a|http://u:p@h/a\n\
|HTTP://EXAMPLE.com/%7Efoo|http|example.com|80|/%7Efoo|http://example.com/%7Efoo\n\
|http:///a|http|a|80|/|http://a/\n\
|http:\\\\h\\a|http|h|80|/a|http://h/a\n\
|http://0x7f.1/|http|127.0.0.1|80|/|http://127.0.0.1/\n\
|http://[::1]/|http|[::1]|80|/|http://[::1]/\n\
|http://%41/|http|a|80|/|http://a/\n\
|http://h/^|http|h|80|/%5E|http://h/%5E\n\
|http://h/a%00|http|h|80|/a%00|http://h/a%00\n\
|\u{20} http://h/\ta |http|h|80|/a|http://h/a\n\
|http://h/a b|http|h|80|/a%20b|http://h/a%20b\n\
|http://h/../../a|http|h|80|/a|http://h/a\n\
|http://h/b/%2e%2E/a|http|h|80|/a|http://h/a\n\
|tftp://h/../a|tftp|h|69|a|tftp://h/a\n\
|tftp://h/%2e./../a/./b|tftp|h|69|a/b|tftp://h/a/b\n\
|tftp://h/a/..%2fb|tftp|h|69|a/../b|tftp://h/a/..%2fb\n\
||BadUri\n\
|vmlinuz|BadUri\n\
|/vmlinuz|BadUri\n\
|//h/vmlinuz|BadUri\n\
|1http://h/|BadUri\n\
|tftp://h:65536/a|BadUri\n\
|http://h:65536/a|BadUri\n\
|http://h:4294967376/a|BadUri\n\
|http://h:-1/|BadUri\n\
|http://h:8o/|BadUri\n\
|tftp:///a|BadUri\n\
|tftp:/a|BadUri\n\
|tftp:a|BadUri\n\
|tftp://:69/a|BadUri\n\
|tftp://u@/a|BadUri\n\
|http://|BadUri\n\
|http://@/a|BadUri\n\
|http://256.1.1.1/|BadUri\n\
|http://[::1/|BadUri\n\
|http://a%00b/|BadUri\n\
|tftp://a b/c|BadUri\n\
|tftp://h/a%00|BadUri\n\
|tftp://h/%00?a|BadUri\n\
|file:///a|BadUri\n\
|mailto:a@b|BadUri\n\
|nfs:|BadUri\n\
|\u{20}iscsi:h::::t|BadUri\n\
|file://h/a|NoScheme\n\
|https://h/a|NoScheme\n\
|https://h/%00|NoScheme\n\
|ftp://h/a|NoScheme\n\
|nfs://h/a|NoScheme\n\
|tftps://h/a|NoScheme\n\
|nfs://h:65536/a|BadUri\n\
tftp://10.0.0.1/x/boot.ipxe|vmlinuz|tftp|10.0.0.1|69|x/vmlinuz|tftp://10.0.0.1/x/vmlinuz\n\
tftp://10.0.0.1/x/boot.ipxe|/a|tftp|10.0.0.1|69|a|tftp://10.0.0.1/a\n\
tftp://10.0.0.1/x/boot.ipxe|../../a|tftp|10.0.0.1|69|a|tftp://10.0.0.1/a\n\
tftp://10.0.0.1/x/boot.ipxe|?a|tftp|10.0.0.1|69|x/boot.ipxe|tftp://10.0.0.1/x/boot.ipxe?a\n\
tftp://10.0.0.1/x/boot.ipxe|//h:70/a|tftp|h|70|a|tftp://h:70/a\n\
tftp://10.0.0.1/x/boot.ipxe|http://h/a|http|h|80|/a|http://h/a\n\
tftp://10.0.0.1/x/boot.ipxe|tftp:a|BadUri\n\
tftp://10.0.0.1/x/boot.ipxe|a%00|BadUri\n\
tftp://10.0.0.1/x/boot.ipxe|https://h/a|NoScheme\n\
tftp://10.0.0.1/|a|tftp|10.0.0.1|69|a|tftp://10.0.0.1/a\n\
https://h/a|b|NoScheme\n\
iscsi:h::::t|b|BadUri\n\
iscsi:h::::t|http://h/a|http|h|80|/a|http://h/a\n\
boot.ipxe|http://h/a|BadUri\n\
http://h:65536/|http://h/a|BadUri\n\
";

/// RFC 3986, section 5.4: its examples over its own base; `http:g` as section 5.4.2 says of older clients, and the
/// URL Standard of all.
const REFERENCES: &str = "\
http://a/b/c/d;p?q|g|http|a|80|/b/c/g|http://a/b/c/g\n\
http://a/b/c/d;p?q|./g|http|a|80|/b/c/g|http://a/b/c/g\n\
http://a/b/c/d;p?q|g/|http|a|80|/b/c/g/|http://a/b/c/g/\n\
http://a/b/c/d;p?q|/g|http|a|80|/g|http://a/g\n\
http://a/b/c/d;p?q|?y|http|a|80|/b/c/d;p?y|http://a/b/c/d;p?y\n\
http://a/b/c/d;p?q|g?y|http|a|80|/b/c/g?y|http://a/b/c/g?y\n\
http://a/b/c/d;p?q|#s|http|a|80|/b/c/d;p?q|http://a/b/c/d;p?q\n\
http://a/b/c/d;p?q|g#s|http|a|80|/b/c/g|http://a/b/c/g\n\
http://a/b/c/d;p?q|g?y#s|http|a|80|/b/c/g?y|http://a/b/c/g?y\n\
http://a/b/c/d;p?q|;x|http|a|80|/b/c/;x|http://a/b/c/;x\n\
http://a/b/c/d;p?q|g;x|http|a|80|/b/c/g;x|http://a/b/c/g;x\n\
http://a/b/c/d;p?q|g;x?y#s|http|a|80|/b/c/g;x?y|http://a/b/c/g;x?y\n\
http://a/b/c/d;p?q||http|a|80|/b/c/d;p?q|http://a/b/c/d;p?q\n\
http://a/b/c/d;p?q|.|http|a|80|/b/c/|http://a/b/c/\n\
http://a/b/c/d;p?q|./|http|a|80|/b/c/|http://a/b/c/\n\
http://a/b/c/d;p?q|..|http|a|80|/b/|http://a/b/\n\
http://a/b/c/d;p?q|../|http|a|80|/b/|http://a/b/\n\
http://a/b/c/d;p?q|../g|http|a|80|/b/g|http://a/b/g\n\
http://a/b/c/d;p?q|../..|http|a|80|/|http://a/\n\
http://a/b/c/d;p?q|../../|http|a|80|/|http://a/\n\
http://a/b/c/d;p?q|../../g|http|a|80|/g|http://a/g\n\
http://a/b/c/d;p?q|../../../g|http|a|80|/g|http://a/g\n\
http://a/b/c/d;p?q|../../../../g|http|a|80|/g|http://a/g\n\
http://a/b/c/d;p?q|/./g|http|a|80|/g|http://a/g\n\
http://a/b/c/d;p?q|/../g|http|a|80|/g|http://a/g\n\
http://a/b/c/d;p?q|g.|http|a|80|/b/c/g.|http://a/b/c/g.\n\
http://a/b/c/d;p?q|.g|http|a|80|/b/c/.g|http://a/b/c/.g\n\
http://a/b/c/d;p?q|g..|http|a|80|/b/c/g..|http://a/b/c/g..\n\
http://a/b/c/d;p?q|..g|http|a|80|/b/c/..g|http://a/b/c/..g\n\
http://a/b/c/d;p?q|./../g|http|a|80|/b/g|http://a/b/g\n\
http://a/b/c/d;p?q|./g/.|http|a|80|/b/c/g/|http://a/b/c/g/\n\
http://a/b/c/d;p?q|g/./h|http|a|80|/b/c/g/h|http://a/b/c/g/h\n\
http://a/b/c/d;p?q|g/../h|http|a|80|/b/c/h|http://a/b/c/h\n\
http://a/b/c/d;p?q|g;x=1/./y|http|a|80|/b/c/g;x=1/y|http://a/b/c/g;x=1/y\n\
http://a/b/c/d;p?q|g;x=1/../y|http|a|80|/b/c/y|http://a/b/c/y\n\
http://a/b/c/d;p?q|g?y/./x|http|a|80|/b/c/g?y/./x|http://a/b/c/g?y/./x\n\
http://a/b/c/d;p?q|g?y/../x|http|a|80|/b/c/g?y/../x|http://a/b/c/g?y/../x\n\
http://a/b/c/d;p?q|g#s/./x|http|a|80|/b/c/g|http://a/b/c/g\n\
http://a/b/c/d;p?q|g#s/../x|http|a|80|/b/c/g|http://a/b/c/g\n\
http://a/b/c/d;p?q|http:g|http|a|80|/b/c/g|http://a/b/c/g\n\
";

/// As FILES, with the target's name and the LUN in place of a path and the URI (RFC 4173, section 5; 3260 is
/// RFC 7143's port). No base is looked at, not even one that is no URL.
const DISKS: &str = "\
|iscsi:10.0.0.1::::iqn.x:t|iscsi|10.0.0.1|3260|iqn.x:t|0\n\
|iSCSI:h:6:860:1:t|iscsi|h|860|t|1000000000000\n\
tftp://h/a|iscsi:h.b:6:65535:1-22-333-4444:eui.0|iscsi|h.b|65535|eui.0|1002203334444\n\
a|ISCSI:h::1:fFfF-0-00aB:::|iscsi|h|1|::|ffff000000ab0000\n\
|iscsi:h::::t?a#b|iscsi|h|3260|t?a#b|0\n\
|iscsi:|BadUri\n\
|iscsi:h|BadUri\n\
|iscsi:h:::t|BadUri\n\
|iscsi://h/t|BadUri\n\
|iscsi:::::t|BadUri\n\
|iscsi:h::::|BadUri\n\
|iscsi:h:17:::t|BadUri\n\
|iscsi:h:06:::t|BadUri\n\
|iscsi:h:TCP:::t|BadUri\n\
|iscsi:h::0::t|BadUri\n\
|iscsi:h::03260::t|BadUri\n\
|iscsi:h::65536::t|BadUri\n\
|iscsi:h::68796::t|BadUri\n\
|iscsi:h::+1::t|BadUri\n\
|iscsi:h:: 1::t|BadUri\n\
|iscsi:h::1x::t|BadUri\n\
|iscsi:h:::12345:t|BadUri\n\
|iscsi:h:::1-2-3-4-5:t|BadUri\n\
|iscsi:h:::1-2-3-4-:t|BadUri\n\
|iscsi:h:::-:t|BadUri\n\
|iscsi:h:::-1:t|BadUri\n\
|iscsi:h:::1-:t|BadUri\n\
|iscsi:h:::1--2:t|BadUri\n\
|iscsi:h:::g:t|BadUri\n\
|iscsi:h:::+1:t|BadUri\n\
|iscsi:h:::0x1:t|BadUri\n\
|iscsi:[::1]::::t|BadUri\n\
";

/// A file's URI, and the name of its image: the last segment is cut before it is decoded, once (RFC 3986, section 2.4).
const NAMES: &str = "\
tftp://10.0.0.1/x/boot.ipxe|boot.ipxe\n\
tftp://h/a%2fb|a/b\n\
tftp://h/x%2Fy/a%20b|a b\n\
tftp://h/a%2500|a%00\n\
tftp://h/a%zz|a%zz\n\
tftp://h/\u{e9}|\u{e9}\n\
tftp://h/d/../a|a\n\
tftp://h/a?b/c#d/e|a\n\
tftp://h/d/|h\n\
tftp://h?a/b|h\n\
http://[::1]:8080/|[::1]\n\
";

fn joined(
    alloc: Global,
    scheme: &str,
    host: &Text,
    port: u16,
    rest: [&[u8]; 2],
) -> Result<Vec<u8>, Fail> {
    let mut text = Vec::from_slice(alloc, scheme.as_bytes())?;
    let port = format!(in alloc; "{port}")?;
    for field in [host.as_slice(), port.as_bytes(), rest[0], rest[1]] {
        text.push(b'|')?;
        text.extend_from_slice(field)?;
    }
    Ok(text)
}

/// What a text names, as the rows have it.
fn shown(alloc: Global, answer: &Result<UriTarget, UriError>) -> Result<Vec<u8>, Fail> {
    match answer {
        Ok(
            UriTarget::Tftp {
                host,
                port,
                path,
                whole,
            },
        ) => {
            joined(
                alloc,
                "tftp",
                host,
                *port,
                [path.as_slice(), whole.as_slice()],
            )
        }
        Ok(
            UriTarget::Http {
                host,
                port,
                path,
                whole,
            },
        ) => {
            joined(
                alloc,
                "http",
                host,
                *port,
                [path.as_slice(), whole.as_slice()],
            )
        }
        Ok(
            UriTarget::Iscsi {
                host,
                port,
                lun,
                name,
                ..
            },
        ) => {
            let lun = format!(in alloc; "{:x}", u64::from_be_bytes(*lun))?;
            joined(
                alloc,
                "iscsi",
                host,
                *port,
                [name.as_slice(), lun.as_bytes()],
            )
        }
        Err(why) => Ok(format!(in alloc; "{why:?}")?.into_bytes()),
    }
}

fn agree(rt: &impl Abort, alloc: Global, rows: &str) -> Result<(), Fail> {
    for row in rows.lines() {
        let (base, rest) = row.split_once('|').ok_or("no base")?;
        let (text, expected) = rest.split_once('|').ok_or("no text")?;
        let base = if base.is_empty() {
            None
        } else {
            Some(base.as_bytes())
        };
        let named = shown(alloc, &resolve(alloc, base, text.as_bytes()))?;
        assert_eq!(rt; named.as_slice(), expected.as_bytes(), "{row}");
    }
    Ok(())
}

#[test]
fn what_texts_name(rt: HostRuntime) -> Result<(), Fail> {
    for rows in [FILES, REFERENCES, DISKS] {
        agree(&rt, rt.alloc(), rows)?;
    }
    let base = Some(b"http://h/\xed\xa0\x80".as_slice());
    assert!(rt;
        resolve(rt.alloc(), base, b"http://h/a").is_err(),
        "no UTF-8 (RFC 3629, section 3)"
    );
    Ok(())
}

fn image_of(alloc: Global, target: &UriTarget) -> Result<Text, NoMemory> {
    match target {
        UriTarget::Tftp { host, whole, .. } => image_name(alloc, whole.as_slice(), host.as_slice()),
        UriTarget::Http { host, whole, .. } => image_name(alloc, whole.as_slice(), host.as_slice()),
        UriTarget::Iscsi { .. } => Ok(Text::from_vec(Vec::new(alloc))),
    }
}

#[test]
fn names_of_images(rt: HostRuntime) -> Result<(), Fail> {
    for row in NAMES.lines() {
        let (text, expected) = row.split_once('|').ok_or("no name")?;
        let target = resolve(rt.alloc(), None, text.as_bytes())?;
        let name = image_of(rt.alloc(), &target)?;
        assert_eq!(rt; name.as_slice(), expected.as_bytes(), "{row}");
    }
    assert_eq!(rt; number(b"1.20.199.234"), Some(Ip4(0x0114_c7ea)));
    Ok(())
}

/// Why a URI of so many bytes names nothing, if it does not.
fn refusal_of(alloc: Global, len: usize) -> Result<Option<UriError>, Fail> {
    let mut text = Vec::from_slice(alloc, b"tftp://h/")?;
    text.resize(len, b'a')?;
    Ok(resolve(alloc, None, text.as_slice()).err())
}

/// A URI has at most 16,384 bytes.
#[test]
fn the_longest(rt: HostRuntime) -> Result<(), Fail> {
    for (len, refusal) in [(16_384, None), (16_385, Some(UriError::TooLong))] {
        assert_eq!(rt; refusal_of(rt.alloc(), len)?, refusal, "{len} bytes");
    }
    Ok(())
}
