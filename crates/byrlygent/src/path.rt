// A path that another program traced.
ghost use Rattle.std.specs.Prelude.{◌≡◌};
ghost use Rattle.handed.specs.Handed.{returned, told, told_found, told_place, itself};
ghost use Rattle.handed.specs.Verdicts.{fault_number, index_in};
ghost use Rattle.path_check.specs.Calls.{path_call};
ghost use Rattle.byrlygent.specs.Lent.{settings_of};

use handed::refusal::hand_refusal;
use handed::verdict::hand_verdict;
use refusals::Settings;

// The first fault of a path of the orbiting polygon along the stationary one: 0 for none, 1 for a point without a contact, 2 for a leg that runs into
// something; and where it is.
#[unsafe(no_mangle)]
pub extern "C" fn byr_check_path(
    stationary: &[f64],
    orbiting: &[f64],
    tolerance: f64,
    smallest: f64,
    limit: u64,
    path: &[f64],
    fault: &mut u32,
    index: &mut u64,
    place: &mut u64,
) -> u32
    ensures value { result ≡ returned
        (path_call stationary.now orbiting.now (settings_of tolerance smallest limit) path.now) }
    ensures fault_after { fault.new ≡ told fault_number
        (path_call stationary.now orbiting.now (settings_of tolerance smallest limit) path.now)
        fault.old }
    ensures index_after { index.new ≡ told_found itself
        (index_in (path_call stationary.now orbiting.now (settings_of tolerance smallest limit) path.now))
        index.old }
    ensures place_after { place.new ≡ told_place
        (path_call stationary.now orbiting.now (settings_of tolerance smallest limit) path.now)
        place.old }
{
    let settings = Settings {
        contact_tolerance: tolerance,
        min_translation: smallest,
        max_iterations: limit,
    };
    hand_refusal(
        hand_verdict(
            path_check::calls::check_path(stationary, orbiting, settings, path),
            fault,
            index,
        ),
        place,
    )
}
