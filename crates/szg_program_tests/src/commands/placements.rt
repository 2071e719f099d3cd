//! The commands on placements.
use super::fixtures::{
    kbbvk_wdl_constant, knvk_wdl_constant, knvk_wdl_with, kpvk_dtz_mapped, kpvkp_dtz_constant,
    kqvk_wdl_unpaired, pawns_wdl_constant,
};
use super::{check_line, check_lines, check_wrong_words};
use std::test::Fail;

#[test]
fn queen_against_king(rt: HostRuntime) -> Result<(), Fail> {
    let file = kqvk_wdl_unpaired(rt.alloc())?;
    check_lines(
        &rt,
        &file,
        &[
            (
                "szg index KQvK wdl w Ke8 Qa1 kh1",
                0,
                "part a side 0 index 11711\n",
            ),
            ("szg probe KQvK wdl w Ke8 Qa1 kh1", 0, "2\n"),
            ("szg probe KQvK wdl b Ke8 Qa1 kh1", 0, "0\n"),
            ("szg probe --class loss KQvK wdl w Ke8 Qa1 kh1", 0, "2\n"),
            ("szg placement KQvK wdl 11711", 0, "w Kd1 Qh8 ka8\n"),
            (
                "szg placement KQvK wdl 11711 --side 1",
                0,
                "b Kd1 Qh8 ka8\n",
            ),
            ("szg placement KQvK wdl 11711 --part b", 1, "refused part\n"),
            ("szg placement KQvK wdl 31332", 1, "refused index\n"),
            (
                "szg index KQvK wdl w Ke8 Na1 kh1",
                1,
                "refused place: OtherMaterial\n",
            ),
        ],
    )
}

#[test]
fn knight_against_king(rt: HostRuntime) -> Result<(), Fail> {
    let file = knvk_wdl_constant(rt.alloc())?;
    check_line(
        &rt,
        "szg index KNvK wdl w Kb1 Na1 kc1",
        &file,
        0,
        "part a side 0 index 0\n",
    )?;
    check_line(&rt, "szg probe KNvK wdl w Kb1 Na1 kc1", &file, 0, "0\n")?;
    let none = knvk_wdl_with(rt.alloc(), 5)?;
    check_line(&rt, "szg probe KNvK wdl w Kb1 Na1 kc1", &none, 0, "none\n")?;
    let lost = knvk_wdl_with(rt.alloc(), 0)?;
    check_line(&rt, "szg probe KNvK wdl w Kb1 Na1 kc1", &lost, 0, "-2\n")?;
    Ok(())
}

#[test]
fn words_that_are_no_placement(rt: HostRuntime) -> Result<(), Fail> {
    check_lines(
        &rt,
        b"",
        &[
            (
                "szg probe KNvK wdl w Kb1 Na1",
                1,
                "refused placement: Men\n",
            ),
            (
                "szg probe KNvK wdl w Kb1 Nb1 kc1",
                1,
                "refused placement: SameSquare\n",
            ),
            (
                "szg index KNvK wdl w Kb1 Pa8 kc1",
                1,
                "refused placement: PawnRank\n",
            ),
            (
                "szg index KNvK wdl w Kb1 Na1 kc1 na2 na3 na4 na5 na6",
                1,
                "refused placement: Men\n",
            ),
            (
                "szg index KNvK wdl w Kb1 Na1 kc1 na2 na3 na4 na5 na9",
                1,
                "refused man\n",
            ),
            ("szg index KNvK wdl w Kb1 Na1 ki1", 1, "refused man\n"),
            ("szg index KNvK wdl w Kb1 Na1 kc0", 1, "refused man\n"),
            ("szg index KNvK wdl w Kb1 Na1 xc1", 1, "refused man\n"),
            ("szg index KNvK wdl w Kb1 Na1 kc", 1, "refused man\n"),
            ("szg index KNvK wdl w Kb1 Na1 kc11", 1, "refused man\n"),
            (
                "szg index KvKN wdl w Kb1 Na1 ki1",
                1,
                "refused name: Sides\n",
            ),
        ],
    )
}

#[test]
fn words_that_ask_no_placement(rt: HostRuntime) -> Result<(), Fail> {
    check_wrong_words(
        &rt,
        b"",
        &[
            "szg index KNvK wdl w",
            "szg index KNvK wdl white Kb1 Na1 kc1",
            "szg probe KNvK wdl w Kb1 Na1 kc1 --class won",
            "szg index KNvK wdl w Kb1 Na1 kc1 --class win",
            "szg placement KNvK wdl -1",
        ],
    )
}

#[test]
fn pawns(rt: HostRuntime) -> Result<(), Fail> {
    let one = pawns_wdl_constant(rt.alloc(), &[0x00, 0x11, 0x66, 0xee])?;
    let two = pawns_wdl_constant(rt.alloc(), &[0x00, 0x11, 0x11, 0x66, 0xee])?;
    check_line(
        &rt,
        "szg index KPvK wdl w Pe2 Ke1 ke8",
        &one,
        0,
        "part d side 0 index 21564\n",
    )?;
    check_line(
        &rt,
        "szg placement KPvK wdl --part d 21564",
        &one,
        0,
        "w Kd1 Pd2 kd8\n",
    )?;
    check_line(
        &rt,
        "szg placement KPPvK wdl 891622",
        &two,
        0,
        "w Ke1 Pa2 Ph2 ke8\n",
    )?;
    let both = kpvkp_dtz_constant(rt.alloc())?;
    check_line(
        &rt,
        "szg placement KPvKP dtz 0",
        &both,
        1,
        "refused place: WrongSide\n",
    )?;
    Ok(())
}

#[test]
fn numbers(rt: HostRuntime) -> Result<(), Fail> {
    let file = kpvk_dtz_mapped(rt.alloc())?;
    check_lines(
        &rt,
        &file,
        &[
            ("szg probe KPvK dtz w Ke1 Pa2 ke8", 0, "14\n"),
            ("szg probe KPvK dtz w Ke1 Pb2 ke8 --class win", 0, "600\n"),
            ("szg probe KPvK dtz w Ke1 --class win Pc2 ke8", 0, "0\n"),
            (
                "szg probe KPvK dtz w Ke1 Pa2 ke8 --class blessed",
                1,
                "refused map: OutsideMap\n",
            ),
            (
                "szg probe KPvK dtz w Ke1 Pa2 ke8 --class draw",
                1,
                "refused map: Draw\n",
            ),
            (
                "szg probe KPvK dtz b Ke1 Pa2 ke8",
                1,
                "refused place: WrongSide\n",
            ),
        ],
    )
}

#[test]
fn two_bishops(rt: HostRuntime) -> Result<(), Fail> {
    let file = kbbvk_wdl_constant(rt.alloc(), [0x66, 0xee, 0x33, 0x33])?;
    check_line(
        &rt,
        "szg index KBBvK wdl w Kb1 Bg8 Bh8 kd1",
        &file,
        0,
        "part a side 0 index 873180\n",
    )?;
    check_line(
        &rt,
        "szg index KBBvK wdl b kb1 bg8 bh8 Kd1",
        &file,
        0,
        "part a side 0 index 873180\n",
    )?;
    check_line(
        &rt,
        "szg index KBBvK wdl w Kb1 Bg8 Bh8 kb2",
        &file,
        1,
        "refused place: KingsTouch\n",
    )?;
    let apart = kbbvk_wdl_constant(rt.alloc(), [0x33, 0x66, 0xee, 0x33])?;
    check_line(
        &rt,
        "szg placement KBBvK wdl 0",
        &apart,
        1,
        "refused place: Irregular\n",
    )?;
    Ok(())
}
