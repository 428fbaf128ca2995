ghost use Rattle.std.specs.Prelude.{◌≡◌, ◌≢◌, ◌<◌, ◌≤◌, ℕ, All, IfOk, length};
ghost use Rattle.migration_report.specs.Outcomes.{HasOutcomeText, IsTellable};
ghost use Rattle.migration_report.specs.Texts.{IsPrinted};

use ios_lines::ReadKind;
use migration_report::{Decision, Outcome, Refusal};
use net_addr::{Bytes, Name, Prefix};
use net_model::{LimitWhat, Net, NetRefusal};
use order_core::{Tag, Turn, Turns};
use plan_theory::EndFault;
use std::alloc::{AllocError, Global};
use std::process::Abort;
use std::test::Fail;
use step_scripts::OrderKind;
use test_networks::bare;

/// The outcome is printed as this line.
fn prints(
    rt: &impl Abort,
    alloc: Global,
    outcome: Outcome,
    expected: &[u8],
) -> Result<(), AllocError>
    requires { HasOutcomeText outcome }
{
    let text = outcome.text(alloc)?;
    assert_eq!(rt; text.as_slice(), expected);
    Ok(())
}

/// A network of two routers.
fn two_routers(rt: &impl Abort, alloc: Global) -> Result<Net, Fail>
    ensures { IfOk result (λ net. length net ≡ 2) }
{
    let net = Net::build(alloc, bare(alloc, 2)?)?;
    assert_eq!(rt; net.routers(), 2);
    Ok(net)
}

/// The decision on a network of two routers is printed as this line.
fn tells(
    rt: &impl Abort,
    alloc: Global,
    net: Net,
    decision: Decision,
    expected: &[u8],
) -> Result<(), Fail>
    requires { IsTellable net decision }
{
    prints(rt, alloc, Outcome::Decided { net, decision }, expected)?;
    Ok(())
}

/// The ring of R1 and R2.
fn ring(alloc: Global) -> Result<Turns, AllocError>
    ensures { IfOk result (λ turns. (count : ℕ) → 2 ≤ count → All (λ turn. turn.router < count) turns) }
{
    let old = Turn {
        router: 0,
        tag: Tag::Old,
    };
    let new = Turn {
        router: 1,
        tag: Tag::New,
    };
    Ok(Turns::from_vec(vec![in alloc; old, new]?))
}

#[test]
fn an_order_is_safe(rt: HostRuntime) -> Result<(), Fail> {
    let net = two_routers(&rt, rt.alloc())?;
    tells(&rt, rt.alloc(), net, Decision::Safe, b"safe 4\n")
}

#[test]
fn a_state_of_an_order_has_a_loop(rt: HostRuntime) -> Result<(), Fail> {
    let net = two_routers(&rt, rt.alloc())?;
    let turns = ring(rt.alloc())?;
    let fault = EndFault::Loop {
        address: 0x0a00_0003,
        turns,
    };
    let looped = Decision::Unsafe { state: 2, fault };
    tells(
        &rt,
        rt.alloc(),
        net,
        looped,
        b"unsafe 2 10.0.0.3 loop R1 R2\n",
    )
}

#[test]
fn a_state_of_an_order_lacks_a_step(rt: HostRuntime) -> Result<(), Fail> {
    let net = two_routers(&rt, rt.alloc())?;
    let fault = EndFault::Missing {
        address: 0x0a01_0000,
        router: 1,
    };
    let missing = Decision::Unsafe { state: 0, fault };
    tells(
        &rt,
        rt.alloc(),
        net,
        missing,
        b"unsafe 0 10.1.0.0 missing R2\n",
    )
}

#[test]
fn a_wave_list_is_safe(rt: HostRuntime) -> Result<(), Fail> {
    let net = two_routers(&rt, rt.alloc())?;
    let safe = Decision::SafeWaves { waves: 1 };
    tells(&rt, rt.alloc(), net, safe, b"safe 4 waves 1\n")
}

#[test]
fn a_wave_lacks_a_step(rt: HostRuntime) -> Result<(), Fail> {
    let net = two_routers(&rt, rt.alloc())?;
    let fault = EndFault::Missing {
        address: 0x0a01_0000,
        router: 1,
    };
    let missing = Decision::UnsafeWave { wave: 1, fault };
    tells(
        &rt,
        rt.alloc(),
        net,
        missing,
        b"unsafe wave 1 10.1.0.0 missing R2\n",
    )
}

/// The file that is named in refusals.
fn file(alloc: Global) -> Result<Bytes, AllocError> {
    Ok(Bytes::from_vec(b"r1.cfg".to_vec(alloc)?))
}

/// The refusal is printed as this line.
fn refuses(
    rt: &impl Abort,
    alloc: Global,
    refusal: Refusal,
    expected: &[u8],
) -> Result<(), AllocError>
    requires { IsPrinted refusal }
{
    prints(rt, alloc, Outcome::Refused { refusal }, expected)
}

#[test]
fn input_is_refused(rt: HostRuntime) -> Result<(), Fail> {
    let alloc = rt.alloc();
    let none = Bytes::from_vec(Vec::new(alloc));
    let more = Bytes::from_vec(b"error: ..\n".to_vec(alloc)?);
    let read = Refusal::Read { file: file(alloc)? };
    let config = Refusal::Config {
        file: file(alloc)?,
        line: 6,
        kind: ReadKind::NoEnd,
    };
    let start = Refusal::OffStart {
        name: name(alloc, b"R2")?,
    };
    let length = Refusal::Length { file: file(alloc)? };
    let total = Refusal::Total { number: 67108865 };
    refuses(
        &rt,
        alloc,
        Refusal::Words { detail: none },
        b"words refused\n",
    )?;
    refuses(
        &rt,
        alloc,
        Refusal::Words { detail: more },
        b"words refused\nerror: ..\n",
    )?;
    refuses(&rt, alloc, read, b"read fault r1.cfg\n")?;
    refuses(&rt, alloc, config, b"refused r1.cfg 6 NoEnd\n")?;
    refuses(&rt, alloc, start, b"refused network NotAtStart R2\n")?;
    refuses(
        &rt,
        alloc,
        Refusal::Files { number: 201 },
        b"limit files 201\n",
    )?;
    refuses(&rt, alloc, length, b"limit bytes r1.cfg\n")?;
    refuses(&rt, alloc, total, b"limit total 67108865\n")?;
    Ok(())
}

#[test]
fn an_order_is_refused(rt: HostRuntime) -> Result<(), Fail> {
    let net = two_routers(&rt, rt.alloc())?;
    let order = Decision::BadOrder {
        file: file(rt.alloc())?,
        line: 4,
        kind: OrderKind::Twice,
    };
    tells(&rt, rt.alloc(), net, order, b"refused r1.cfg 4 Twice\n")
}

/// The refusal of a network is printed as this line.
fn prints_network(
    rt: &impl Abort,
    alloc: Global,
    refusal: NetRefusal,
    expected: &[u8],
) -> Result<(), AllocError>
    requires { refusal ≢ NetRefusal.OutOfMemory }
{
    refuses(rt, alloc, Refusal::Network { refusal }, expected)
}

/// The name with these bytes.
fn name(alloc: Global, bytes: &[u8]) -> Result<Name, AllocError> {
    Ok(Name::from_vec(bytes.to_vec(alloc)?))
}

#[test]
fn names_and_addresses_clash(rt: HostRuntime) -> Result<(), Fail> {
    let alloc = rt.alloc();
    let names = NetRefusal::TwoNames {
        name: name(alloc, b"R1")?,
    };
    prints_network(&rt, alloc, names, b"refused network TwoNames R1\n")?;
    let addresses = NetRefusal::AddressTwice {
        one: name(alloc, b"R1")?,
        two: name(alloc, b"R2")?,
        address: 0x0aff_0001,
    };
    prints_network(
        &rt,
        alloc,
        addresses,
        b"refused network AddressTwice R1 R2 10.255.0.1\n",
    )?;
    Ok(())
}

#[test]
fn areas_clash(rt: HostRuntime) -> Result<(), Fail> {
    let alloc = rt.alloc();
    let areas = NetRefusal::PrefixInTwoAreas {
        one: name(alloc, b"R1")?,
        two: name(alloc, b"R2")?,
        dest: Prefix::around(0x0aff_0001, 30).ok_or("no prefix")?,
    };
    prints_network(
        &rt,
        alloc,
        areas,
        b"refused network PrefixInTwoAreas R1 R2 10.255.0.0/30\n",
    )?;
    let stubs = NetRefusal::StubMismatch {
        one: name(alloc, b"R1")?,
        two: name(alloc, b"R2")?,
        area: 1,
    };
    prints_network(&rt, alloc, stubs, b"refused network StubMismatch R1 R2 1\n")?;
    Ok(())
}

#[test]
fn systems_clash(rt: HostRuntime) -> Result<(), Fail> {
    let alloc = rt.alloc();
    let systems = NetRefusal::SystemIdTwice {
        one: name(alloc, b"R1")?,
        two: name(alloc, b"R2")?,
    };
    prints_network(
        &rt,
        alloc,
        systems,
        b"refused network SystemIdTwice R1 R2\n",
    )?;
    Ok(())
}

#[test]
fn sums_and_limits_are_refused(rt: HostRuntime) -> Result<(), Fail> {
    let alloc = rt.alloc();
    let border = NetRefusal::BorderWithoutBackbone {
        router: name(alloc, b"R2")?,
    };
    let costs = NetRefusal::OspfCostSum { sum: 16777215 };
    let metrics = NetRefusal::IsisMetricSum { sum: u64::MAX };
    prints_network(
        &rt,
        alloc,
        border,
        b"refused network BorderWithoutBackbone R2\n",
    )?;
    prints_network(&rt, alloc, costs, b"refused network OspfCostSum 16777215\n")?;
    prints_network(
        &rt,
        alloc,
        metrics,
        b"refused network IsisMetricSum 18446744073709551615\n",
    )?;
    for (what, expected) in [
        (LimitWhat::Routers, b"limit routers 4097\n".as_slice()),
        (LimitWhat::Interfaces, b"limit interfaces 4097\n"),
        (LimitWhat::Dests, b"limit prefixes 4097\n"),
    ] {
        prints_network(
            &rt,
            alloc,
            NetRefusal::Limit { what, number: 4097 },
            expected,
        )?;
    }
    Ok(())
}
