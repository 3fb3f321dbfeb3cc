//! What is true of each web.

ghost use Rattle.pd_alike_law.specs.Feeds.{FedOnce};

use pd_web::Web;

/// Does nothing. Its contract is that each wire stands once among the feeds of the inlet to which it leads.
pub fn feeds_stand_once(web: &Web)
    ensures { FedOnce web.now }
{
    web.laws();
}
