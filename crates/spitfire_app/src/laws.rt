//! Laws of the promises, as the contract of a function that does nothing.
ghost use Rattle.spitfire_app.specs.Laws.{OrderIsStore, ImagesAreInOrder};

/// What devices in order are: they hold a store that can be opened, and so does what a crash leaves of them.
pub fn in_order()
    ensures store { OrderIsStore }
    ensures images { ImagesAreInOrder }
{}
