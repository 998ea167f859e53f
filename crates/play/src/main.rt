// Plays a net of three styles over the styles that are named as arguments, and prints what each step did.
#![tactic(auto)]

use crate::lines::{Answer, Menu};
use crate::putting::put;
use crate::styles::{STYLES, style_named};
use anyhow::anyhow;
use example::nets::sample_net;
use galley::galleys::Galley;
use net::nets::Net;
use std::env;
use wheel::turning::Wheel;
use wheel::two::Two;

mod lines;
mod putting;
mod styles;

// The places with their start values, and the arc to each style.
fn print_net(rt: &HostRuntime, net: &Net<Two>) -> anyhow::Result<()> {
    for place in 0..net.places() {
        if let Some(start) = net.start(place) {
            let digit = start.digit();
            print!(rt; "place {place} starts at {digit}:")?;
            for (style, name) in STYLES.iter().enumerate() {
                if let Some(cell) = net.cell(place, style) {
                    let arc = cell.arc();
                    print!(rt; " {name} {arc};")?;
                }
            }
            println!(rt; "")?;
        }
    }
    Ok(())
}

fn play(rt: &HostRuntime, net: &Net<Two>) -> anyhow::Result<()> {
    let Ok(mut galley) = Galley::stand(rt.alloc(), net) else {
        return Err(anyhow!("no memory for a galley"));
    };
    rt.println(Menu {
        offers: galley.may(),
    })?;
    for word in env::args(rt)?.skip(1) {
        let word = word.as_str();
        let answer = put(&mut galley, style_named(word));
        rt.println(Answer { word, answer })?;
        rt.println(Menu {
            offers: galley.may(),
        })?;
    }
    Ok(())
}

fn run(rt: &HostRuntime) -> anyhow::Result<()> {
    let Ok(net) = sample_net(rt.alloc()) else {
        return Err(anyhow!("no memory for the net"));
    };
    print_net(rt, &net)?;
    play(rt, &net)
}

fn main(rt: HostRuntime) -> anyhow::Result<()> {
    run(&rt)
}
