use nb_labrun::{Status, call, lab};
use nb_record::{NoMemory, SureLine};
use std::alloc::Global;
use std::test::*;

fn words_of(alloc: Global, texts: &[&str]) -> Result<Vec<String>, NoMemory> {
    let mut words = Vec::new(alloc);
    for text in texts {
        words.push(String::from_str(alloc, text)?)?;
    }
    Ok(words)
}

/// One image, worked by hand. Records: START, by which the client asks for the server's interface; the answer; a TICK, after
/// which the request is sent; the options; block 1 with all 1,000 bytes; and block 2 with none. The client's frames are the
/// question, the request and ACK 0 to 2; tries are the question, the request, ACK 0 and ACK 1.
const ONE: &[u8] = b"images 1\nbytes 1000\nrecords 6\nframes 5\ntries 4\nstatus 3\n";

/// Two images. The second one's SYN goes out in record 6. Its answer is the servers' frame 5; the client acknowledges it, and
/// sends the request. The response has 2,037 bytes: frame 6 brings 1,000 of them, frame 7 is lost, three TICKs pass, and then
/// frames 8 and 9 bring 1,000 and 37. Each is acknowledged, and the client's FIN is the last of its 12 frames; tries are two
/// more, the SYN and the request.
const TWO: &[u8] = b"images 2\nbytes 2977\nrecords 13\nframes 12\ntries 6\nstatus 3\n";

#[test]
fn prints_the_summary(rt: HostRuntime) -> Result<(), Fail> {
    for (number, summary) in [("1", ONE), ("2", TWO)] {
        let words = words_of(rt.alloc(), &["lab", number])?;
        let mut line = SureLine::new(rt.alloc(), &[], &[], 1000)?;
        assert_eq!(rt; lab(rt.alloc(), words.as_slice(), &mut line), Status::Ended);
        assert_eq!(rt; line.output(), summary, "of {number}");
    }
    Ok(())
}

/// The image `i` has 1,000 + 977 `i` bytes: 64 have 64,000 + 977 * 2,016 together.
#[test]
fn prints_the_same_again(rt: HostRuntime) -> Result<(), Fail> {
    let words = words_of(rt.alloc(), &["lab", "64"])?;
    let mut first = SureLine::new(rt.alloc(), &[], &[], 1000)?;
    let mut second = SureLine::new(rt.alloc(), &[], &[], 1000)?;
    assert_eq!(rt;
        lab(rt.alloc(), words.as_slice(), &mut first),
        Status::Ended
    );
    assert_eq!(rt;
        lab(rt.alloc(), words.as_slice(), &mut second),
        Status::Ended
    );
    assert_eq!(rt; first.output(), second.output());
    assert!(rt; first.output().starts_with(b"images 64\nbytes 2033632\n"));
    assert!(rt; first.output().ends_with(b"\nstatus 3\n"));
    Ok(())
}

/// DONE with the status of a bad record, which stands where there is no START.
const NO_RECORD: &[u8] = &[0, 0, 0, 2, 0x8d, 6];

/// The status of a call with these words, which writes this to its first line and that to its second.
fn called(
    alloc: Global,
    texts: &[&str],
    written: &[u8],
    printed: &[u8],
) -> Result<Option<Status>, NoMemory> {
    let words = words_of(alloc, texts)?;
    let mut line = SureLine::new(alloc, &[], &[], 1000)?;
    let mut page = SureLine::new(alloc, &[], &[], 1000)?;
    let status = call(alloc, words.as_slice(), &mut line, &mut page);
    Ok((line.output() == written && page.output() == printed).then_some(status))
}

#[test]
fn runs_each_form(rt: HostRuntime) -> Result<(), Fail> {
    let alloc = rt.alloc();
    let lab = called(alloc, &["lab", "1"], &[], ONE)?;
    assert_eq!(rt; lab, Some(Status::Ended));
    let replay = called(alloc, &["replay", "in", "out"], NO_RECORD, &[])?;
    assert_eq!(rt; replay, Some(Status::BadRecord));
    let none = called(alloc, &["lab", "0"], &[], &[])?;
    assert_eq!(rt; none, Some(Status::BadWords));
    Ok(())
}
