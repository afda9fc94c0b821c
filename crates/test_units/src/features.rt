//! Features of a server.

use crate::seen::assert_same;
use ftp_base::command::feat::parse_features;
use ftp_base::types::Features;
use std::alloc::{AllocError, Global};
use std::test::Fail;

/// `SIZE` and `MLST` with a value, put in in this order.
fn some_features(alloc: Global) -> Result<Features, AllocError> {
    let mut features = Features::new(alloc);
    features.insert(String::from_str(alloc, "SIZE")?, None)?;
    let value = String::from_str(alloc, "size*;")?;
    features.insert(String::from_str(alloc, "MLST")?, Some(value))?;
    Ok(features)
}

#[test]
fn features_are_gone_through_by_their_names(rt: HostRuntime) -> Result<(), Fail> {
    let features = some_features(rt.alloc())?;
    let mut text = String::new(rt.alloc());
    for (name, value) in features.iter() {
        text.push_str(name)?;
        text.push(if value.is_some() { '=' } else { '.' })?;
    }
    assert_same(&rt, text.as_str(), "MLST=SIZE.");
    Ok(())
}

#[test]
fn equal_features_have_the_same_names_and_values(rt: HostRuntime) -> Result<(), Fail> {
    let mut features = some_features(rt.alloc())?;
    let copy = features.clone()?;
    let before = copy == features;
    features.insert(String::from_str(rt.alloc(), "MLST")?, None)?;
    assert!(rt; before && copy != features);
    Ok(())
}

#[test]
fn features_are_lent_and_given_away_as_a_map(rt: HostRuntime) -> Result<(), Fail> {
    let features = some_features(rt.alloc())?;
    let size = matches!(features.get("SIZE"), Some(None));
    let lent = features.as_map().len();
    assert_same(&rt, (size, lent, features.into_map().len()), (true, 2, 2));
    Ok(())
}

#[test]
fn features_are_counted_and_looked_for(rt: HostRuntime) -> Result<(), Fail> {
    let features = some_features(rt.alloc())?;
    let has = [features.contains("SIZE"), features.contains("MDTM")];
    let none = Features::new(rt.alloc()).is_empty();
    assert_same(
        &rt,
        (has, features.len(), features.is_empty(), none),
        ([true, false], 2, false, true),
    );
    Ok(())
}

// RFC 2389, section 3.2.
#[test]
fn the_features_of_a_reply(rt: HostRuntime) -> Result<(), Fail> {
    let mut lines = Vec::new(rt.alloc());
    for line in [
        "211-Features:\r\n",
        " MLST size*;\r\n",
        " SIZE\r\n",
        "211 END\r\n",
    ] {
        lines.push(String::from_str(rt.alloc(), line)?)?;
    }
    let features = parse_features(rt.alloc(), &lines)?;
    assert!(rt; features == some_features(rt.alloc())?);
    Ok(())
}
