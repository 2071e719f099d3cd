//! Folders that are verified.

ghost use Rattle.std.specs.Prelude.{◌<◌};

use std::alloc::Global;
use std::process::Abort;
use std::test::Fail;
use szg_files::{MemoryFile, MemoryFiles};
use szg_fixtures as fixtures;
use szg_values::Material;
use szg_verified::{ShardVerification, verify_folder, verify_folder_shard};
use szg_verify::{Shard, Watcher};

/// Shows nothing.
#[derive(Drop)]
struct Unseen;

impl Watcher for Unseen {
    fn see_progress(&mut self, _material: &Material, _done: u64, _to: u64, _positions: u64) {}

    fn end(&mut self) {}
}

/// The line of the drawn table. Another program counted the positions (see the tests of `verify_tables`), and sha256sum made
/// the digest of its file.
const VERIFIED: &str =
    "KNvK verified positions 107360 sha256 141abed92f52137d37a2610e559ed864485612a8fb7d420004ba36030c6384e0\n";

fn knight(rt: &impl Abort) -> Material {
    match Material::parse("KNvK") {
        Ok(material) => material,
        Err(_) => panic!(rt; "no material"),
    }
}

/// The verification of a king and a knight in the folder `t`, with these bytes as their WDL table and a log, writes this
/// text.
fn check_knight(
    rt: &(impl Abort + Alloc<A = Global>),
    bytes: &[u8],
    log: Option<&str>,
    is_all: bool,
    text: &str,
) -> Result<(), Fail> {
    let files = [MemoryFile {
        path: "t/KNvK.rtbw",
        bytes,
    }];
    let mut asked = Vec::new(rt.alloc());
    asked.push(knight(rt))?;
    let mut system = MemoryFiles {
        files: &files,
        failures: 0,
    };
    let mut output = Vec::new(rt.alloc());
    let found = verify_folder(
        rt.alloc(),
        &mut system,
        "t",
        asked,
        log,
        &mut output,
        &mut Unseen,
    );
    assert_eq!(rt; str::from_utf8(&output), Ok(text));
    match found {
        Ok(verification) => assert_eq!(rt; verification.is_all, is_all),
        Err(_) => panic!(rt; "it was not verified to the end"),
    }
    Ok(())
}

#[test]
fn a_drawn_folder_is_verified(rt: HostRuntime) -> Result<(), Fail> {
    let file = fixtures::knvk_wdl_constant(rt.alloc())?;
    let text = format!(in rt.alloc(); "{VERIFIED}all verified: materials 1, positions 107360\n")?;
    check_knight(&rt, file.bytes.as_slice(), None, true, text.as_str())
}

// Black has lost with a value of 0: in the first position that is no mate there is no distance.
#[test]
fn a_changed_folder_is_not(rt: HostRuntime) -> Result<(), Fail> {
    let file = fixtures::knvk_wdl_constant(rt.alloc())?.changed(rt.alloc(), &[(13, 0)])?;
    // the log is about other bytes
    check_knight(
        &rt,
        file.bytes.as_slice(),
        Some(VERIFIED),
        false,
        "KNvK refused missing table KNvK dtz\nnot all verified: materials 1, verified 0, positions 0\n",
    )
}

/// The digest of the drawn table.
const DIGEST: &str = "141abed92f52137d37a2610e559ed864485612a8fb7d420004ba36030c6384e0";

#[test]
fn what_a_log_has_is_passed_over(rt: HostRuntime) -> Result<(), Fail> {
    let file = fixtures::knvk_wdl_constant(rt.alloc())?;
    for (log, positions) in [
        ("KNvK verified positions 7 sha256 D\n", 7),
        ("a line\nKNvK logged: verified positions 7 sha256 D", 7),
        (
            "KNvK shard 2/2 verified positions 5 sha256 D\nKNvK shard 1/2 verified positions 3 sha256 D\n",
            8,
        ),
    ] {
        let log = log.replace(rt.alloc(), "D", DIGEST)?;
        let text = format!(in rt.alloc();
            "KNvK logged: verified positions {positions} sha256 {DIGEST}\nverified or logged: materials 1, logged 1, positions 0\n"
        )?;
        check_knight(&rt, &file.bytes, Some(log.as_str()), true, text.as_str())?;
    }
    Ok(())
}

// Lines that are no record of it: another material, whose name may begin with this one's, a shard alone or none, other words.
#[test]
fn what_a_log_lacks_is_checked(rt: HostRuntime) -> Result<(), Fail> {
    let file = fixtures::knvk_wdl_constant(rt.alloc())?;
    let text = format!(in rt.alloc(); "{VERIFIED}all verified: materials 1, positions 107360\n")?;
    let log =
        "KBvK verified positions 7 sha256 D\nKNvKN verified positions 7 sha256 D\nKNvK shard 1/2 verified positions 7 sha256 D\nKNvK shard 2/3 verified positions 7 sha256 D\nKNvK shard 0/0 verified positions 7 sha256 D\nKNvK refused verified positions 7 sha256 D\nKNvK verified positions seven sha256 D\nKNvK verified positions 7 sha256 DD\n".replace(
            rt.alloc(),
            "D",
            DIGEST,
        )?;
    check_knight(&rt, &file.bytes, Some(log.as_str()), true, text.as_str())
}

/// The number of positions that the line of a shard of the drawn table has.
fn shard_positions(
    rt: &(impl Abort + Alloc<A = Global>),
    bytes: &[u8],
    shard: Shard,
) -> Result<u64, Fail>
    requires { shard.before < shard.shards }
{
    let files = [MemoryFile {
        path: "t/KNvK.rtbw",
        bytes,
    }];
    let mut system = MemoryFiles {
        files: &files,
        failures: 0,
    };
    let mut output = Vec::new(rt.alloc());
    let alloc = rt.alloc();
    let material = knight(rt);
    let found = verify_folder_shard(
        alloc,
        &mut system,
        "t",
        &material,
        shard,
        &mut output,
        &mut Unseen,
    );
    let Ok(
        ShardVerification {
            positions: Ok(checked),
            ..
        },
    ) = found
    else {
        panic!(rt; "a shard of true tables fails");
    };
    let number = u32::from(shard.before) + 1;
    let shards = shard.shards;
    let front = format!(in rt.alloc(); "KNvK shard {number}/{shards} verified positions ")?;
    let back = format!(in rt.alloc(); " sha256 {DIGEST}\n")?;
    let text = str::from_utf8(&output)?;
    let Some(rest) = text.strip_prefix(front.as_str()) else {
        panic!(rt; "{text}");
    };
    let Some(positions) = rest.strip_suffix(back.as_str()) else {
        panic!(rt; "{text}");
    };
    assert_eq!(rt; positions.parse::<u64>()?, checked);
    Ok(checked)
}

#[test]
fn shards_have_all_positions(rt: HostRuntime) -> Result<(), Fail> {
    let file = fixtures::knvk_wdl_constant(rt.alloc())?;
    let mut positions: u64 = 0;
    for before in 0..3 {
        let shard = Shard { before, shards: 3 };
        positions = positions.saturating_add(shard_positions(&rt, &file.bytes, shard)?);
    }
    assert_eq!(&rt; positions, 107_360);
    Ok(())
}
