ghost use Rattle.std.specs.Prelude.{None};
ghost use Rattle.store_edge.specs.Files.{file_bytes};

use migrate_cli::{Status, run};
use net_addr::{Bytes, Name};
use std::alloc::{AllocError, Global};
use std::test::Fail;
use store_edge::{Calls, Failed, FileAnswer, FileList, Files, MemoryFiles, Sink};

/// Files in memory that keep how many bytes each read asked for.
#[derive(Drop)]
struct Recorded {
    files: MemoryFiles,
    most: Vec<u64>,
}

impl Files for Recorded {
    ghost content = { λ recorded name. file_bytes recorded.files.files name };

    ghost asked = { λ recorded. recorded.files.reads.asked };

    ghost faults = { λ recorded. recorded.files.reads.faults };

    ghost failed_at = { λ recorded. recorded.files.reads.failed_at };

    fn read(&mut self, alloc: Global, name: &str, most: u64) -> Result<Bytes, FileAnswer> {
        self.most.push(most)?;
        self.files.read(alloc, name, most)
    }
}

/// A sink that takes some pieces, and keeps the length of each.
#[derive(Drop)]
pub(crate) struct Collected {
    pub(crate) all: Vec<u8>,
    lengths: Vec<usize>,
    left: u64,
    faults: u64,
}

impl Collected {
    /// A sink that takes so many pieces.
    fn new(alloc: Global, pieces: u64) -> Collected {
        Collected {
            all: Vec::new(alloc),
            lengths: Vec::new(alloc),
            left: pieces,
            faults: 0,
        }
    }
}

impl Sink for Collected {
    ghost written = { λ _. None };

    ghost faults = { λ sink. sink.faults };

    fn write(&mut self, piece: &[u8]) -> Result<(), Failed> {
        if piece.is_empty() {
            return Ok(());
        }
        if self.left == 0
            || self.lengths.push(piece.len()).is_err()
            || self.all.extend_from_slice(piece).is_err()
        {
            self.faults = self.faults.saturating_add(1);
            return Err(Failed);
        }
        self.left -= 1;
        Ok(())
    }
}

/// What a call did.
#[derive(Drop)]
pub(crate) struct Outcome {
    pub(crate) status: Status,
    most: Vec<u64>,
    pub(crate) out: Collected,
    /// What it said meanwhile.
    progress: Collected,
}

/// An order file and configuration files, by their names.
pub(crate) type FilesOf<'a> = &'a [(&'a str, &'a [u8])];

/// Runs a command on these files, of which one read fails, and none where its number is 0, while each sink takes so many pieces.
pub(crate) fn run_command(
    alloc: Global,
    command: &str,
    files: FilesOf<'_>,
    failing: u64,
    pieces: u64,
) -> Result<Outcome, AllocError> {
    let mut words = Vec::new(alloc);
    words.push(String::from_str(alloc, command)?)?;
    let mut all = Vec::new(alloc);
    for (name, bytes) in files {
        words.push(String::from_str(alloc, name)?)?;
        let name = Name::from_vec(Vec::from_slice(alloc, name.as_bytes())?);
        let bytes = Bytes::from_vec(Vec::from_slice(alloc, bytes)?);
        all.push((name, bytes))?;
    }
    let calls = Calls::from_vec(Vec::from_slice(alloc, &[failing])?);
    let mut held = Recorded {
        files: MemoryFiles::new(alloc, FileList::from_vec(all), calls),
        most: Vec::new(alloc),
    };
    let mut out = Collected::new(alloc, pieces);
    let mut progress = Collected::new(alloc, pieces);
    let status = run(alloc, words.as_slice(), &mut held, &mut out, &mut progress);
    Ok(Outcome {
        status,
        most: held.most,
        out,
        progress,
    })
}

const TWO_ROUTERS: [(&str, &[u8]); 3] = [
    ("o.txt", b"order 1\nR1\nR2\n"),
    ("r1.cfg", b"hostname R1\nend\n"),
    ("r2.cfg", b"hostname R2\nend\n"),
];

#[test]
fn faults_of_files_and_of_the_sink_are_answers(rt: HostRuntime) -> Result<(), Fail> {
    for (failing, pieces, status, text) in [
        (0, 1, Status::Done, "safe 4\n"),
        (1, 1, Status::ReadFault, "read fault o.txt\n"),
        (2, 1, Status::ReadFault, "read fault r1.cfg\n"),
        (3, 1, Status::ReadFault, "read fault r2.cfg\n"),
        (0, 0, Status::WriteFault, ""),
        (2, 0, Status::WriteFault, ""),
    ] {
        let outcome = run_command(rt.alloc(), "check", &TWO_ROUTERS, failing, pieces)?;
        assert_eq!(rt; outcome.status, status);
        assert_eq!(rt; outcome.out.all.as_slice(), text.as_bytes());
    }
    Ok(())
}

#[test]
fn each_file_is_read_up_to_one_byte_more_than_it_may_have(rt: HostRuntime) -> Result<(), Fail> {
    let outcome = run_command(rt.alloc(), "check", &TWO_ROUTERS, 0, 1)?;
    assert_eq!(rt; outcome.most.as_slice(), [16_777_217; 3].as_slice());
    Ok(())
}

#[test]
fn a_long_text_is_written_in_pieces(rt: HostRuntime) -> Result<(), Fail> {
    let alloc = rt.alloc();
    let name = "o".repeat(alloc, 5000)?;
    let text = format!(in alloc; "read fault {name}\n")?;
    let files = [(name.as_str(), "".as_bytes()), TWO_ROUTERS[1]];
    let whole = run_command(alloc, "check", &files, 1, 2)?;
    assert_eq!(rt; whole.status, Status::ReadFault);
    assert_eq!(rt; whole.out.lengths.as_slice(), [4096, 916].as_slice());
    assert_eq!(rt; whole.out.all.as_slice(), text.as_bytes());
    let cut = run_command(alloc, "check", &files, 1, 1)?;
    assert_eq!(rt; cut.status, Status::WriteFault);
    assert_eq!(rt; cut.out.lengths.as_slice(), [4096].as_slice());
    assert!(rt; text.as_bytes().starts_with(cut.out.all.as_slice()));
    Ok(())
}

/// The configurations of 60 routers with both processes.
fn sixty_routers(alloc: Global) -> Result<String, AllocError> {
    let mut text = String::new(alloc);
    for i in 1..61 {
        let router = format!(in alloc;
            "hostname S{i:02}\nrouter ospf 1\nrouter isis\n net 49.0001.0000.0000.00{i:02}.00\n metric-style wide\n distance 255\nend\n"
        )?;
        text.push_str(router.as_str())?;
    }
    Ok(text)
}

/// The order of 60 routers by their names.
fn sixty_in_order(alloc: Global) -> Result<String, AllocError> {
    let mut text = String::from_str(alloc, "order 1\n")?;
    for i in 1..61 {
        let line = format!(in alloc; "S{i:02}\n")?;
        text.push_str(line.as_str())?;
    }
    Ok(text)
}

#[test]
fn a_script_is_cut_where_its_second_write_fails(rt: HostRuntime) -> Result<(), Fail> {
    let alloc = rt.alloc();
    let (order, routers) = (sixty_in_order(alloc)?, sixty_routers(alloc)?);
    let files = [("o.txt", order.as_bytes()), ("all.cfg", routers.as_bytes())];
    let whole = run_command(alloc, "scripts", &files, 0, 2)?;
    assert_eq!(rt; whole.status, Status::Done);
    assert_eq!(rt; whole.out.lengths.as_slice(), [4096, 236].as_slice());
    let cut = run_command(alloc, "scripts", &files, 0, 1)?;
    assert_eq!(rt; cut.status, Status::WriteFault);
    assert_eq!(rt; cut.out.lengths.as_slice(), [4096].as_slice());
    Ok(())
}

const TWO_LINKS: [(&str, &[u8]); 3] = [
    ("o.txt", b"order 1\nR1\nR2\n"),
    (
        "r1.cfg",
        b"hostname R1
interface Ethernet0
 ip address 10.0.0.1 255.255.255.252
interface Ethernet1
 ip address 10.0.0.5 255.255.255.252
end
",
    ),
    (
        "r2.cfg",
        b"hostname R2
interface Ethernet0
 ip address 10.0.0.2 255.255.255.252
interface Ethernet1
 ip address 10.0.0.6 255.255.255.252
end
",
    ),
];

#[test]
fn a_long_call_says_how_far_it_is_and_a_fault_there_is_let_be(rt: HostRuntime) -> Result<(), Fail> {
    for (pieces, said) in [
        (2, "\rfailures: 1 of 2 links\rfailures: 2 of 2 links\n"),
        (1, "\rfailures: 1 of 2 links"),
    ] {
        let outcome = run_command(rt.alloc(), "failures", &TWO_LINKS, 0, pieces)?;
        assert_eq!(rt; outcome.status, Status::Done);
        assert_eq!(rt;
            outcome.out.all.as_slice(),
            b"safe 4\nfailures 2 links 2 withstood 0 break 0 ends\n".as_slice()
        );
        assert_eq!(rt; outcome.progress.all.as_slice(), said.as_bytes());
    }
    Ok(())
}
