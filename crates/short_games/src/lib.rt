//! Short games (Conway, On Numbers and Games; Siegel, Combinatorial Game Theory) as definitions over trees: their order and
//! play, sums, numbers, stops, canonical trees, texts, parts and walls, nimbers and ups. There is no code: each law is the
//! contract of a function that does nothing. README.md is the table of contents.
#![tactic(auto)]

ghost use Rattle.short_games.specs.OrderLaws.{OrderIs, ConfusedIs, IsReflexive, IsTransitive};
ghost use Rattle.short_games.specs.PlayLaws.{GamesAreDetermined, OrderIsPlay, OutcomesAre, PlayCompares, MovesWinByPlay};
ghost use Rattle.short_games.specs.SumLaws.{SumsKeepOrder, CancelsNegative, IncentiveDominates, IncentiveDominatesBack};
ghost use Rattle.short_games.specs.GroupLaws.{SumsAssociate, SumsCommute, ZeroIsNeutral, NegativesCancel, EqualsAdd};
ghost use Rattle.short_games.specs.GroupLaws.{SumsOrder, NegativesTurn, NegativesAdd, NegativeTwice, DifferencesTell};
ghost use Rattle.short_games.specs.DyadicLaws.{NumbersOrder, NumbersHaveOneTree, NumbersAdd, NumbersAddOnce, NumbersTurn, NumbersAreCanonical};
ghost use Rattle.short_games.specs.NumberLaws.{LeftAvoidsNumbers, RightAvoidsNumbers, NumbersTranslate};
ghost use Rattle.short_games.specs.NumberLaws.{SimplestIsValue, FittingHaveSimplest, NumbersFit};
ghost use Rattle.short_games.specs.AvoidanceLaws.{LeftMovesInGame, RightMovesInGame, LeftMovesInGames, RightMovesInGames, NumbersShift};
ghost use Rattle.short_games.specs.StopLaws.{IsUnderLeftStop, IsOverRightStop, StopsAreOrdered, StopsExist};
ghost use Rattle.short_games.specs.GameStopLaws.{GamesHaveStops, StopsGoOn, CanonicalStopsAgree, LeftStopBounds, RightStopBounds, StopsKeepOrder};
ghost use Rattle.short_games.specs.GameStopLaws.{RightStopIsLess, StopsTellOutcomes, StopsTurn, StopsOfSums, StopsTranslate, KnownGameStops};
ghost use Rattle.short_games.specs.TextLaws.{TextsAreOneToOne, TextsTellGames};
ghost use Rattle.short_games.specs.CanonicalLaws.{EachHasCanonical, OptionsAreFollowers, FollowersAreCanonical, CanonicalHasFewestNodes};
ghost use Rattle.short_games.specs.CanonicalLaws.{CanonicalIsBornFirst, PartsAreCounted, CanonicalHasFewestParts, GamesHaveNoFewerParts};
ghost use Rattle.short_games.specs.NimberLaws.{KnownNimbers, NimSum, NimbersAreConfused, NimbersAreNegatives, NimbersAreNoNumbers, MexRule, ImpartialAreNimbers};
ghost use Rattle.short_games.specs.UpLaws.{KnownUps, UpsGrow, UpsAreInfinitesimal, UpsAreForms, UpsAndStarAreForms};
ghost use Rattle.short_games.specs.KnownValues.{KnownNumbers, KnownFractions, KnownOrder, KnownSums, KnownCanonical, KnownStops, KnownWalls, KnownSwitch, KnownTwoSteps};
ghost use Rattle.short_games.specs.WallLaws.{WallsExist, WallsAreUnique, WallsGoOn, WallsBeginAtStops, TemperaturesExist, MastStands};
ghost use Rattle.short_games.specs.GameWallLaws.{GamesHaveWalls, EqualGamesHaveEqualWalls, GameWallsBeginAtStops, NumbersAreMasts, GamesHaveTemperatures};
ghost use Rattle.short_games.specs.WallLaws.{WallsAreOrdered, WallsAreUprightOrDiagonal, NoneBetween, NoneBendsBetween, WallsAreOnGrids};

/// The order of games is a preorder, and what is less or confused is what is not at least (Conway).
pub fn order_laws()
    ensures is { OrderIs }
    ensures confused { ConfusedIs }
    ensures reflexive { IsReflexive }
    ensures transitive { IsTransitive }
{}

/// Outcomes: whoever moves first, exactly one side wins by play, and who wins is how the game stands to 0 (Conway). It is
/// above, below, equal to or confused with 0 where Left, Right, who moves second or who moves first wins; and it is at most
/// another where Left, moving second, wins the difference.
pub fn play_laws()
    ensures determined { GamesAreDetermined }
    ensures order { OrderIsPlay }
    ensures outcomes { OutcomesAre }
    ensures compares { PlayCompares }
    ensures moves { MovesWinByPlay }
{}

/// Sums keep the order, and each game cancels its negative (Conway). The incentive of one game's option is at least that of
/// another game's option exactly where to move to the one and leave the other game is at least as good as the other way
/// round.
pub fn sum_laws()
    ensures sums { SumsKeepOrder }
    ensures negative { CancelsNegative }
    ensures dominated { IncentiveDominates }
    ensures back { IncentiveDominatesBack }
{}

/// Games are a partly ordered group under sums, up to equality (Conway): sums are associative and commutative, 0 is
/// neutral, a game and its negative cancel, equal games may stand for one another, sums keep the order both ways, and
/// negatives turn it.
pub fn group_laws()
    ensures associate { SumsAssociate }
    ensures commute { SumsCommute }
    ensures neutral { ZeroIsNeutral }
    ensures cancel { NegativesCancel }
    ensures equals { EqualsAdd }
    ensures order { SumsOrder }
    ensures turn { NegativesTurn }
    ensures negative { NegativesAdd }
    ensures twice { NegativeTwice }
    ensures difference { DifferencesTell }
{}

/// The tree of m / 2 ^ e is that number: trees of numbers are ordered, the same, added and turned exactly as the numbers
/// are, and they are canonical (Conway). With `known_values`, by which the tree of 1 is {0|}, no other tree can stand for it.
pub fn dyadic_laws()
    ensures order { NumbersOrder }
    ensures one_tree { NumbersHaveOneTree }
    ensures add { NumbersAdd }
    ensures add_once { NumbersAddOnce }
    ensures turn { NumbersTurn }
    ensures canonical { NumbersAreCanonical }
{}

/// Number avoidance: beside games that are no numbers, moves in numbers aren't needed. Number translation: to add a number
/// to a canonical game that is no number is to add it to each option. Where a number fits between the options of a game, the
/// game is the simplest such number, and between those of a number a number fits (Conway).
pub fn number_laws()
    ensures left { LeftAvoidsNumbers }
    ensures right { RightAvoidsNumbers }
    ensures translation { NumbersTranslate }
    ensures simplest { SimplestIsValue }
    ensures fitting { FittingHaveSimplest }
    ensures fit { NumbersFit }
{}

/// Number avoidance and number translation for every game that isn't equal to a number, and every form of a number
/// (Conway): who moves first and wins the sum of the two wins it by a move in the game, and the sum is the game with the
/// number added to each option.
pub fn avoidance_laws()
    ensures left { LeftMovesInGame }
    ensures right { RightMovesInGame }
    ensures left_of_sum { LeftMovesInGames }
    ensures right_of_sum { RightMovesInGames }
    ensures translation { NumbersShift }
{}

/// Canonical games have stops, which bound them, and the left stop is at least the right one (Siegel).
pub fn stop_laws()
    ensures exist { StopsExist }
    ensures under { IsUnderLeftStop }
    ensures over { IsOverRightStop }
    ensures ordered { StopsAreOrdered }
{}

/// Games in any form have stops, which for canonical forms are those of `stop_laws`, and by which numbers are told to be at
/// least or at most the game (Siegel). A greater game has stops no less, the right stop is at most the left one, negatives
/// turn the stops, those of a sum are bounded by those of the two games, and with a number added both move by it.
pub fn game_stop_laws()
    ensures exist { GamesHaveStops }
    ensures go_on { StopsGoOn }
    ensures canonical { CanonicalStopsAgree }
    ensures left { LeftStopBounds }
    ensures right { RightStopBounds }
    ensures keep { StopsKeepOrder }
    ensures ordered { RightStopIsLess }
    ensures outcomes { StopsTellOutcomes }
    ensures turn { StopsTurn }
    ensures sums { StopsOfSums }
    ensures translate { StopsTranslate }
    ensures known { KnownGameStops }
{}

/// A tree is known by its text, and a game by the text of its canonical form.
pub fn text_laws()
    ensures trees { TextsAreOneToOne }
    ensures games { TextsTellGames }
{}

/// Each game has exactly one canonical form (Conway). It is made of followers of the options' canonical forms, each of its
/// followers is the canonical form of a follower, and of all equal games it has the fewest nodes and parts and is born first.
pub fn canonical_laws()
    ensures one { EachHasCanonical }
    ensures followers { OptionsAreFollowers }
    ensures inherited { FollowersAreCanonical }
    ensures nodes { CanonicalHasFewestNodes }
    ensures born { CanonicalIsBornFirst }
    ensures counted { PartsAreCounted }
    ensures parts { CanonicalHasFewestParts }
    ensures no_fewer { GamesHaveNoFewerParts }
{}

/// Nimbers add up by the rule of nim; different ones are confused, each is its own negative, and none but that of 0 is a
/// number. Each impartial game is a nimber, that of the mex of its options (Sprague, Grundy).
pub fn nimber_laws()
    ensures known { KnownNimbers }
    ensures add { NimSum }
    ensures confused { NimbersAreConfused }
    ensures turn { NimbersAreNegatives }
    ensures no_numbers { NimbersAreNoNumbers }
    ensures mex { MexRule }
    ensures impartial { ImpartialAreNimbers }
{}

/// Up is above 0 and confused with star; its multiples grow, stay below each number above 0, and have the forms that every
/// book gives them.
pub fn up_laws()
    ensures known { KnownUps }
    ensures grow { UpsGrow }
    ensures infinitesimal { UpsAreInfinitesimal }
    ensures forms { UpsAreForms }
    ensures with_star { UpsAndStarAreForms }
{}

/// A canonical game has exactly one left and one right wall, on each fine grid of places; they begin at its stops, go
/// straight from one place of such a grid to the next, upright or diagonally, the right one at most the left one; and of a
/// game that is no number they meet at one of the places, its temperature, from which both are the mast.
pub fn wall_laws()
    ensures exist { WallsExist }
    ensures unique { WallsAreUnique }
    ensures go_on { WallsGoOn }
    ensures begin { WallsBeginAtStops }
    ensures temperature { TemperaturesExist }
    ensures mast { MastStands }
    ensures ordered { WallsAreOrdered }
    ensures slopes { WallsAreUprightOrDiagonal }
    ensures between { NoneBetween }
    ensures bends { NoneBendsBetween }
    ensures rule { WallsAreOnGrids }
{}

/// Each game, in any form, has the walls of its canonical form: equal games have equal walls, these begin at the game's stops,
/// those of a number are a mast, and any other game has a temperature.
pub fn game_wall_laws()
    ensures exist { GamesHaveWalls }
    ensures equal { EqualGamesHaveEqualWalls }
    ensures begin { GameWallsBeginAtStops }
    ensures numbers { NumbersAreMasts }
    ensures temperature { GamesHaveTemperatures }
{}

/// Values that every book has (0, 3, -2, 1/2, 3/4, -5/8, star, up, {2|0}, a tiny, the nimber of 2, and thermographs) as
/// instances of the definitions.
pub fn known_values()
    ensures numbers { KnownNumbers }
    ensures fractions { KnownFractions }
    ensures order { KnownOrder }
    ensures sums { KnownSums }
    ensures canonical { KnownCanonical }
    ensures stops { KnownStops }
    ensures walls { KnownWalls }
    ensures switch { KnownSwitch }
    ensures two_steps { KnownTwoSteps }
{}
