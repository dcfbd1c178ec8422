//! The text as which a picture is printed is read back as that picture. Nothing here runs.

ghost use Rattle.round_trip.specs.declarations.printed_pictures.Laws.{PicturesReadBack};

/// The text as which a picture is printed is read back as that picture.
pub fn pictures_read_back()
    ensures { PicturesReadBack }
{}
