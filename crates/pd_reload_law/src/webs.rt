//! What is true of each web.

ghost use Rattle.pd_reload_law.specs.Wires.{StandOnce};

use pd_web::Web;

/// Does nothing. Its contract is that each wire of a web stands once.
pub fn wires_stand_once(web: &Web)
    ensures { StandOnce web.now }
{
    web.laws();
}
