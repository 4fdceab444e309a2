// Sequences of calls on one policy, with answers from outside.
use super::{address_of, number};
use std::alloc::{AllocError, Global};
use std::process::Abort;
use std::test::Fail;
use tva_base::{Address, Listed, PolicyKind, PolicyPlan, Rights};
use tva_policy::Policy;

// `policy` begins one: its kind, units, seconds, grants to a source, and addresses and tags that it denies. `sent` is a
// send row to an address, and `ask` a decision on a source with tags, and whether it grants.
const CASES: &str = "\
case denies all
policy DenyAll 32 10 1000 - -
sent 10.0.1.1
ask 10.0.1.1 - -> false
ask 10.0.2.2 1 -> false
case a client that sent, or never did
policy Client 32 10 1000 - -
ask 10.0.1.1 - -> false
sent 10.0.1.1
ask 10.0.1.1 - -> true
ask 10.0.1.1 1,2 -> true
ask 10.0.2.2 - -> false
sent 10.0.1.1
ask 10.0.1.1 - -> true
case a denied address, a denied tag
policy Server 1023 63 1000 10.0.2.2,0.0.0.0 5,65535
ask 10.0.1.1 - -> true
ask 10.0.2.2 - -> false
ask 10.0.1.1 1,5 -> false
ask 10.0.1.1 65535 -> false
ask 10.0.1.1 1,4,6 -> true
ask 0.0.0.0 - -> false
ask 255.255.255.255 - -> true
case the last grant
policy Server 5 7 2 - 9
ask 10.0.1.1 - -> true
ask 10.0.1.1 9 -> false
ask 10.0.1.1 - -> true
ask 10.0.1.1 - -> false
ask 10.0.2.2 - -> true
ask 10.0.2.2 1 -> true
ask 10.0.2.2 - -> false
sent 10.0.1.1
ask 10.0.1.1 - -> false
case no grants
policy Server 5 7 0 - -
ask 10.0.1.1 - -> false
case rights of nothing
policy Client 0 0 1 - -
sent 10.0.1.1
ask 10.0.1.1 - -> true
ask 10.0.1.1 - -> false
case a client of which an address is denied
policy Client 32 10 1 10.0.1.1 -
sent 10.0.1.1
ask 10.0.1.1 - -> false
sent 10.0.2.2
ask 10.0.2.2 0 -> true";

fn kind_named(word: Option<&str>) -> PolicyKind {
    match word {
        Some("Client") => PolicyKind::Client,
        Some("Server") => PolicyKind::Server,
        _ => PolicyKind::DenyAll,
    }
}

/// The numbers of a word, `-` for none.
fn tags_of(alloc: Global, word: Option<&str>) -> Result<Vec<u16>, AllocError> {
    let mut tags = Vec::new(alloc);
    for word in word.unwrap_or("-").split(',') {
        if word != "-" {
            tags.push(number(Some(word), 65535) as u16)?;
        }
    }
    Ok(tags)
}

/// The addresses of a word, `-` for none.
fn denied_of(rt: &impl Abort, alloc: Global, word: &str) -> Result<Vec<Address>, AllocError> {
    let mut addresses = Vec::new(alloc);
    for word in word.split(',') {
        if word != "-" {
            addresses.push(address_of(rt, Some(word)))?;
        }
    }
    Ok(addresses)
}

/// A policy by the line of a case, and its rights.
fn policy_of(rt: &impl Abort, alloc: Global, line: &str) -> Result<(Policy, Rights), AllocError> {
    let mut words = line.split(' ').skip(1);
    let kind = kind_named(words.next());
    let rights = Rights {
        n: number(words.next(), 1023) as u32,
        t: number(words.next(), 63) as u8,
    };
    let grants = number(words.next(), 1000) as u32;
    let deny = denied_of(rt, alloc, words.next().unwrap_or("-"))?;
    let deny_tags = tags_of(alloc, words.next())?;
    let plan = PolicyPlan {
        kind,
        rights,
        grants,
        deny: Listed::new(deny),
        deny_tags: Listed::new(deny_tags),
    };
    Ok((Policy::build(alloc, &plan)?, rights))
}

/// The rights that a policy grants at the call of a line.
fn granted(
    rt: &impl Abort,
    alloc: Global,
    policy: &mut Policy,
    call: &str,
) -> Result<Option<Rights>, AllocError> {
    let mut words = call.split(' ').skip(1);
    let address = address_of(rt, words.next());
    if call.starts_with("sent") {
        policy.sent(alloc, address)?;
        return Ok(None);
    }
    let tags = tags_of(alloc, words.next())?;
    policy.decide(alloc, address, tags.as_slice())
}

fn crosses<T: Send + Sync>() {}

#[test]
fn decides_as_told(rt: HostRuntime) -> Result<(), Fail> {
    crosses::<Policy>();
    let alloc = rt.alloc();
    let (mut policy, mut rights) = policy_of(&rt, alloc, "policy DenyAll 0 0 0")?;
    let mut calls = 0u64;
    for line in CASES.lines() {
        if line.starts_with("policy") {
            let (next, next_rights) = policy_of(&rt, alloc, line)?;
            policy = next;
            rights = next_rights;
        } else if !line.starts_with("case") {
            let (call, wanted) = line.split_once(" -> ").unwrap_or((line, "false"));
            let answer = granted(&rt, alloc, &mut policy, call)?;
            let wanted = if wanted == "true" { Some(rights) } else { None };
            assert_eq!(rt; answer, wanted, "{line}");
            calls = calls.wrapping_add(1);
        }
    }
    assert_eq!(rt; calls, 34);
    Ok(())
}
