//! Laws of a match that goes on in epochs, each the contract of a function that makes no call.
ghost use Rattle.roll_chain.specs.Lasting.{ItIsLater, OverStays};
ghost use Rattle.roll_chain.specs.OneNumber.{OfOneNumberOneNext};
ghost use Rattle.roll_chain.specs.Together.{TheyGoOnAtAnyTime};

/// Machines that stay together go on together: two of which neither regards the other as gone find the same end of an epoch, by the
/// same mark, and open the next one alike, its number too, whatever the machines call and whatever the network does; also if one of
/// them has gone on long before the other finds the end.
/// Supposed is that they opened this epoch alike, with one profile and one number of comers; that both, when they found the end, had
/// called `judge` since their networks learned of their last mark before it; and that the first finds none of these marks void any
/// more once it has gone on.
pub fn they_go_on_at_any_time()
    ensures { TheyGoOnAtAnyTime }
{}

/// What a machine's network of an epoch was in a world of a match it is later in this way: a mark that it knows stays, and it learns
/// of none of a word that it had; it has no fewer words; and who has left has left, at as many words as there are. So it is whatever
/// the machines call, and whatever the network does.
pub fn it_is_later()
    ensures { ItIsLater }
{}

/// An epoch that is over stays over, with the same end by the same mark, unless a mark before it is found void later.
pub fn over_stays()
    ensures { OverStays }
{}

/// Of one number, one next epoch: two next epochs of the same number come from epochs of the same number, which ended at the same frame and
/// by the same mark, and where players had left before that was the same. If those epochs opened alike, so do the next
/// ones. All this holds of marks that have a spelling, unless the hash gives two different texts the same number.
pub fn of_one_number_one_next()
    ensures { OfOneNumberOneNext }
{}
