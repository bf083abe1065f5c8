//! Commands that are checked by a keeper over lists and by a desk, and then executed by both: the checks are equal, and each says
//! what the command is answered.
use crate::commands::{command_of, first_commands};
use crate::stores::{desk_over, in_memory};
use plant_base::{Envelope, Refusal};
use plant_desk::{Checked, Keeper, ListKeeper, Reply};
use plant_desk_store::Desk;
use sqlite::MemStore;
use std::process::Abort;
use std::test::Fail;

/// Commands that come after the twenty in their order, each with what would become of it: of each refusal that an item is the cause of.
const CHECKED: [(&[u8], Checked); 19] = [
    (
        b"{\"at\":3,\"by\":\"ben\",\"do\":\"import_orders\",\"orders\":[{\"order\":\"O-2\",\"recipe\":\"CAKE\",\"version\":1,\"size\":500,\"due\":\"2027-03-01\",\"priority\":5},{\"order\":\"O-3\",\"recipe\":\"CAKE\",\"version\":2,\"size\":500,\"due\":\"2027-03-01\",\"priority\":5},{\"order\":\"O-4\",\"recipe\":\"PIE\",\"version\":1,\"size\":500,\"due\":\"2027-03-01\",\"priority\":5}]}",
        Checked::Refused {
            refusal: Refusal::UnknownRecipe,
            item: Some(2),
        },
    ),
    (
        b"{\"at\":3,\"by\":\"ben\",\"do\":\"import_orders\",\"orders\":[{\"order\":\"O-2\",\"recipe\":\"CAKE\",\"version\":1,\"size\":500,\"due\":\"2027-03-01\",\"priority\":5},{\"order\":\"O-1\",\"recipe\":\"CAKE\",\"version\":1,\"size\":400,\"due\":\"2027-03-01\",\"priority\":5}]}",
        Checked::Refused {
            refusal: Refusal::OrderConflict,
            item: Some(2),
        },
    ),
    (
        b"{\"at\":3,\"by\":\"ben\",\"do\":\"import_orders\",\"orders\":[{\"order\":\"O-3\",\"recipe\":\"CAKE\",\"version\":1,\"size\":500,\"due\":\"2027-03-01\",\"priority\":5},{\"order\":\"O-2\",\"recipe\":\"CAKE\",\"version\":1,\"size\":500,\"due\":\"2027-03-01\",\"priority\":5},{\"order\":\"O-3\",\"recipe\":\"CAKE\",\"version\":1,\"size\":501,\"due\":\"2027-03-01\",\"priority\":5}]}",
        Checked::Refused {
            refusal: Refusal::OrderConflict,
            item: Some(3),
        },
    ),
    (
        b"{\"at\":3,\"by\":\"ben\",\"do\":\"import_orders\",\"orders\":[{\"order\":\"O-2\",\"recipe\":\"CAKE\",\"version\":1,\"size\":900,\"due\":\"2027-03-01\",\"priority\":5},{\"order\":\"O-3\",\"recipe\":\"CAKE\",\"version\":1,\"size\":901,\"due\":\"2027-03-01\",\"priority\":5}]}",
        Checked::Refused {
            refusal: Refusal::SizeOutOfRange,
            item: Some(2),
        },
    ),
    (
        b"{\"at\":3,\"by\":\"ben\",\"do\":\"merge\",\"new\":\"D-4\",\"place\":\"\",\"parts\":[{\"lot\":\"D-1\",\"sub\":0,\"amount\":1},{\"lot\":\"D-9\",\"sub\":0,\"amount\":1}]}",
        Checked::Refused {
            refusal: Refusal::UnknownLot,
            item: Some(2),
        },
    ),
    (
        b"{\"at\":3,\"by\":\"ben\",\"do\":\"merge\",\"new\":\"D-4\",\"place\":\"\",\"parts\":[{\"lot\":\"D-1\",\"sub\":7,\"amount\":1},{\"lot\":\"D-9\",\"sub\":0,\"amount\":1}]}",
        Checked::Refused {
            refusal: Refusal::UnknownSublot,
            item: Some(1),
        },
    ),
    (
        b"{\"at\":3,\"by\":\"ben\",\"do\":\"merge\",\"new\":\"D-4\",\"place\":\"\",\"parts\":[{\"lot\":\"D-1\",\"sub\":0,\"amount\":340},{\"lot\":\"D-2\",\"sub\":0,\"amount\":41}]}",
        Checked::Refused {
            refusal: Refusal::TooLittle,
            item: Some(2),
        },
    ),
    (
        b"{\"at\":3,\"by\":\"ben\",\"do\":\"merge\",\"new\":\"D-4\",\"place\":\"\",\"parts\":[{\"lot\":\"D-1\",\"sub\":0,\"amount\":1},{\"lot\":\"D-2\",\"sub\":0,\"amount\":1},{\"lot\":\"F-1\",\"sub\":0,\"amount\":1}]}",
        Checked::Refused {
            refusal: Refusal::MixedMaterials,
            item: Some(3),
        },
    ),
    (
        b"{\"at\":3,\"by\":\"ben\",\"do\":\"merge\",\"new\":\"D-3\",\"place\":\"\",\"parts\":[{\"lot\":\"D-1\",\"sub\":0,\"amount\":1}]}",
        Checked::Refused {
            refusal: Refusal::Exists,
            item: None,
        },
    ),
    (
        b"{\"at\":3,\"by\":\"ben\",\"do\":\"add_recipe\",\"recipe\":\"PIE\",\"version\":1,\"product\":\"DOUGH\",\"base\":300,\"min\":100,\"max\":900,\"title\":\"\",\"lines\":[{\"kind\":\"par\",\"name\":\"TEMP\",\"value\":\"80 C\"},{\"kind\":\"in\",\"def\":\"SALT\",\"qty\":100},{\"kind\":\"out\",\"def\":\"DOUGH\",\"qty\":300},{\"kind\":\"phase\",\"unit\":\"MIX\",\"oper\":\"BLEND\",\"phase\":\"STIR\"}]}",
        Checked::Refused {
            refusal: Refusal::UnknownDefinition,
            item: Some(2),
        },
    ),
    (
        b"{\"at\":3,\"by\":\"ben\",\"do\":\"add_recipe\",\"recipe\":\"PIE\",\"version\":1,\"product\":\"PIE\",\"base\":300,\"min\":100,\"max\":900,\"title\":\"\",\"lines\":[{\"kind\":\"in\",\"def\":\"SALT\",\"qty\":100},{\"kind\":\"out\",\"def\":\"PIE\",\"qty\":300},{\"kind\":\"phase\",\"unit\":\"MIX\",\"oper\":\"BLEND\",\"phase\":\"STIR\"}]}",
        Checked::Refused {
            refusal: Refusal::UnknownDefinition,
            item: None,
        },
    ),
    (
        b"{\"at\":3,\"by\":\"ben\",\"do\":\"hold\",\"lot\":\"D-2\",\"hold\":\"H-1\",\"ref\":\"R-1\"}",
        Checked::Accepted,
    ),
    (
        b"{\"at\":3,\"by\":\"ben\",\"do\":\"hold\",\"lot\":\"D-2\",\"hold\":\"H-1\",\"ref\":\"R-1\"}",
        Checked::Accepted,
    ),
    (
        b"{\"at\":3,\"by\":\"ben\",\"do\":\"hold\",\"lot\":\"D-2\",\"hold\":\"H-2\",\"ref\":\"R-1\"}",
        Checked::Refused {
            refusal: Refusal::RefReused,
            item: None,
        },
    ),
    (
        b"{\"at\":3,\"by\":\"ben\",\"do\":\"merge\",\"new\":\"D-4\",\"place\":\"\",\"parts\":[{\"lot\":\"D-1\",\"sub\":0,\"amount\":1},{\"lot\":\"D-2\",\"sub\":0,\"amount\":1}]}",
        Checked::Refused {
            refusal: Refusal::Held,
            item: Some(2),
        },
    ),
    (
        b"{\"at\":3,\"by\":\"ben\",\"do\":\"recall\",\"recall\":\"RC-1\",\"lot\":\"D-3\"}",
        Checked::Accepted,
    ),
    (
        b"{\"at\":3,\"by\":\"ben\",\"do\":\"merge\",\"new\":\"D-4\",\"place\":\"\",\"parts\":[{\"lot\":\"D-1\",\"sub\":0,\"amount\":1},{\"lot\":\"D-3\",\"sub\":0,\"amount\":1}]}",
        Checked::Refused {
            refusal: Refusal::Recalled,
            item: Some(2),
        },
    ),
    (
        b"{\"at\":2,\"by\":\"ben\",\"do\":\"unhold\",\"lot\":\"D-2\",\"hold\":\"H-1\"}",
        Checked::Refused {
            refusal: Refusal::MomentBack,
            item: None,
        },
    ),
    (
        b"{\"at\":3,\"by\":\"ben\",\"do\":\"merge\",\"new\":\"D-4\",\"place\":\"\",\"parts\":[{\"lot\":\"D-1\",\"sub\":0,\"amount\":340}]}",
        Checked::Accepted,
    ),
];

/// Whether a reply is what was said of its command.
fn matches_reply(said: Checked, reply: &Reply) -> bool {
    match (said, reply) {
        (Checked::Accepted, Reply::Accepted(_)) => true,
        (Checked::Refused { refusal, .. }, Reply::Refused(told)) => refusal == *told,
        _ => false,
    }
}

/// Checks that a keeper says this of a command, twice, and then answers it.
fn check_matches<K: Keeper>(
    rt: &impl Abort,
    keeper: &mut K,
    command: &Envelope,
    wanted: Checked,
) -> Result<Reply, Fail> {
    assert!(rt; keeper.check(command)? == wanted);
    assert!(rt; keeper.check(command)? == wanted);
    let reply = keeper.execute(command)?;
    assert!(rt; matches_reply(wanted, &reply));
    Ok(reply)
}

/// Checks that both keepers say this of a command, and answer it alike.
fn check_matches_both(
    rt: &impl Abort,
    lists: &mut ListKeeper,
    desk: &mut Desk<MemStore>,
    command: &Envelope,
    wanted: Checked,
) -> Result<(), Fail> {
    let over_lists = check_matches(rt, lists, command, wanted)?;
    let by_key = check_matches(rt, desk, command, wanted)?;
    assert!(rt; over_lists == by_key);
    Ok(())
}

#[test]
fn a_check_names_the_item_and_tells_the_reply(rt: HostRuntime) -> Result<(), Fail> {
    let mut lists = ListKeeper::new(rt.alloc());
    let mut desk = desk_over(rt.alloc(), in_memory(rt.alloc())?)?;
    for command in &first_commands(rt.alloc(), 20)? {
        check_matches_both(&rt, &mut lists, &mut desk, command, Checked::Accepted)?;
    }
    for (line, wanted) in &CHECKED {
        let command = command_of(rt.alloc(), line)?;
        check_matches_both(&rt, &mut lists, &mut desk, &command, *wanted)?;
    }
    Ok(())
}
