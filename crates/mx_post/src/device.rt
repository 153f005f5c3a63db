//! The devices that a gateway is told: one, the pusher's own.

ghost use Rattle.std.specs.Prelude.{◌≡◌, ◌≤◌, ◌++◌, true, codes, option_map, OnOk};
ghost use Rattle.std.specs.Option.{option_copied};
ghost use Rattle.mx_json.specs.Canonical.{canonical};
ghost use Rattle.mx_json.specs.Json.{is_valid, largest_whole};
ghost use Rattle.mx_json.specs.declared.value.Json.{Object as ObjectValue};
ghost use Rattle.mx_post.specs.Pieces.{before_sound, given_text, silent_text};
ghost use Rattle.mx_post.specs.Post.{device_value, devices_value, tweaks_value};

use crate::details::write_details;
use crate::pieces::{write_number, write_text};
use mx_json::OutOfMemory;
use mx_records::{HttpPusher, PusherSpec, Tweaks};
use std::alloc::Global;

/// Appends the devices as a member that comes after others.
pub(crate) fn write_devices(
    alloc: Global,
    spec: &PusherSpec,
    http: &HttpPusher,
    tweaks: Option<&Tweaks>,
    out: &mut Vec<u8>,
) -> Result<(), OutOfMemory>
    requires details { is_valid (ObjectValue http.now.details) ≡ true }
    requires seconds { http.now.ts ≤ largest_whole }
    ensures { OnOk result (out.new.items ≡ out.old.items
        ++ (codes ",\"devices\":"
        ++ canonical (devices_value spec.now http.now (option_copied tweaks.entry)))) }
{
    out.extend_from_slice(b",\"devices\":[")?;
    write_device(alloc, spec, http, tweaks, out)?;
    out.push(b']')?;
    Ok(())
}

fn write_device(
    alloc: Global,
    spec: &PusherSpec,
    http: &HttpPusher,
    tweaks: Option<&Tweaks>,
    out: &mut Vec<u8>,
) -> Result<(), OutOfMemory>
    requires details { is_valid (ObjectValue http.now.details) ≡ true }
    requires seconds { http.now.ts ≤ largest_whole }
    ensures { OnOk result (out.new.items ≡ out.old.items
        ++ canonical (device_value spec.now http.now (option_copied tweaks.entry))) }
{
    write_text(alloc, b"{\"app_id\":", spec.app_id.as_str(), out)?;
    out.extend_from_slice(b",\"data\":")?;
    write_details(alloc, &http.details, out)?;
    write_text(alloc, b",\"pushkey\":", spec.pushkey.as_str(), out)?;
    write_number(alloc, b",\"pushkey_ts\":", http.ts, out)?;
    write_tweaks_if_told(alloc, tweaks, out)?;
    out.push(b'}')?;
    Ok(())
}

// Appends the tweaks as a member that comes after others, if they are told.
fn write_tweaks_if_told(
    alloc: Global,
    tweaks: Option<&Tweaks>,
    out: &mut Vec<u8>,
) -> Result<(), OutOfMemory>
    ensures { OnOk result (out.new.items ≡ out.old.items
        ++ given_text (codes "tweaks") (option_map tweaks_value (option_copied tweaks.entry))) }
{
    match tweaks {
        Some(tweaks) => {
            out.extend_from_slice(b",\"tweaks\":")?;
            write_tweaks(alloc, tweaks, out)
        }
        None => Ok(()),
    }
}

fn write_tweaks(alloc: Global, tweaks: &Tweaks, out: &mut Vec<u8>) -> Result<(), OutOfMemory>
    ensures { OnOk result (out.new.items ≡ out.old.items ++ canonical (tweaks_value tweaks.now)) }
{
    match &tweaks.sound {
        Some(sound) => {
            write_text(alloc, before_sound(tweaks.highlight), sound.as_str(), out)?;
            out.push(b'}')?;
        }
        None => out.extend_from_slice(silent_text(tweaks.highlight))?,
    }
    Ok(())
}

// How tweaks with a sound begin.
fn before_sound(highlight: bool) -> &'static [u8]
    ensures { result.now ≡ before_sound highlight }
{
    if highlight {
        b"{\"highlight\":true,\"sound\":"
    } else {
        b"{\"sound\":"
    }
}

// Tweaks without a sound.
fn silent_text(highlight: bool) -> &'static [u8]
    ensures { result.now ≡ silent_text highlight }
{
    if highlight {
        b"{\"highlight\":true}"
    } else {
        b"{}"
    }
}
