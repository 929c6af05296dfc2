//! Laws of the definitions alone, each the contract of a function that does nothing.

ghost use Rattle.desk_image.specs.ImageLaws.{ImagesShowSignals, RowsHaveLawfulImages, SignalsHaveOneImage};
ghost use Rattle.desk_image.specs.ImageLaws.{ImagesAreOneToOne};

/// The image of signals shows them.
pub fn images_show_signals()
    ensures { ImagesShowSignals }
{}

/// One image shows the same signals.
pub fn signals_have_one_image()
    ensures { SignalsHaveOneImage }
{}

/// No two rows have one image.
pub fn images_are_one_to_one()
    ensures { ImagesAreOneToOne }
{}

/// The image of each row has no fault.
pub fn rows_have_lawful_images()
    ensures { RowsHaveLawfulImages }
{}
